// Writing into a page.
ghost use Rattle.std.specs.Prelude.{◌≡◌, ◌+◌, ◌≤◌, length};
ghost use Rattle.basics.specs.Pages.{pasted};

// Writes a piece into the page at `at`, and tells where it ends.
pub fn put(page: &mut [u8], at: usize, piece: &[u8]) -> usize
    requires { at + length piece.now ≤ length page.old }
    ensures end { result ≡ at + length piece.now }
    ensures put { page.new ≡ pasted at piece.now page.old }
{
    let end = at + piece.len();
    page[at..end].copy_from_slice(piece);
    end
}
