// Quoting: each text has a form, which a shell reads as that text.
#![tactic(auto)]

pub mod backslash;
pub mod form;
mod pieces;
pub mod quoter;
pub mod single;
pub mod trip;
pub mod unquote;

// Worked examples.
#[cfg(test)]
mod tests {
    use crate::backslash::Backslash;
    use crate::quoter::{NoRoom, Quoter};
    use crate::single::Single;
    use crate::trip::round_trip;
    use crate::unquote::{Unread, unquote};

    #[test]
    fn single_quotes(rt: HostRuntime) {
        let mut page = [b'.'; 12];
        assert_eq!(rt; Single.measure(b"it's"), 9);
        assert_eq!(rt; Single.write(b"it's", &mut page), Ok(9));
        assert!(rt; &page == b"'it'\\''s'...");
        assert_eq!(rt; Single.write(b"", &mut page), Ok(2));
        assert!(rt; &page == b"''t'\\''s'...", "the rest stays");
        assert_eq!(rt;
            Single.write(b"it's and more", &mut page),
            Err(NoRoom),
            "too long for the page"
        );
        assert!(rt; &page == b"''t'\\''s'...", "nothing is written then");
    }

    #[test]
    fn backslashes(rt: HostRuntime) {
        let mut page = [b'.'; 8];
        assert_eq!(rt; Backslash.measure(b"a\n$"), 7);
        assert_eq!(rt; Backslash.write(b"a\n$", &mut page), Ok(7));
        assert!(rt; &page == b"\\a'\n'\\$.");
        assert_eq!(rt; Backslash.write(b"", &mut page), Ok(2));
        assert!(rt; &page == b"'''\n'\\$.", "the empty text");
    }

    #[test]
    fn forms_read_back(rt: HostRuntime) {
        let mut part = [b'.'; 6];
        assert_eq!(rt; unquote(b"'it'\\''s'", &mut part), Ok(4));
        assert!(rt; &part == b"it's..");
        assert_eq!(rt; unquote(b"", &mut part), Err(Unread::Unlawful(0)));
        assert_eq!(rt;
            unquote(b"'a'b", &mut part),
            Err(Unread::Unlawful(3)),
            "a bare byte"
        );
        assert_eq!(rt;
            unquote(b"\\\n", &mut part),
            Err(Unread::Unlawful(1)),
            "a newline after a backslash"
        );
        assert_eq!(rt;
            unquote(b"'ab", &mut part),
            Err(Unread::Unlawful(3)),
            "it breaks off"
        );
        assert_eq!(rt;
            unquote(b"''''", &mut part),
            Err(Unread::Unlawful(2)),
            "too long for no text"
        );
        assert_eq!(rt; unquote(b"'1234567'", &mut part), Err(Unread::NoRoom));
        assert!(rt; &part == b"it's..", "a refusal changes nothing");
    }

    #[test]
    fn texts_return(rt: HostRuntime) {
        let mut page = [0u8; 40];
        let mut part = [0u8; 12];
        assert_eq!(rt;
            round_trip(&Single, b"'$(x)'\\\n\"", &mut page, &mut part),
            Ok(9)
        );
        assert!(rt; &part == b"'$(x)'\\\n\"\0\0\0");
        assert_eq!(rt; round_trip(&Backslash, b"2>f", &mut page, &mut part), Ok(3));
        assert!(rt; &part == b"2>fx)'\\\n\"\0\0\0");
    }
}
