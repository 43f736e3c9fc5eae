// Where the calls on an order leave what they make.
use listing::record::Sheet;

// The page that renders go to, and the sheet that lists go to. Each reference has a lifetime of its own.
#[derive(Drop)]
pub struct Desk<'p, 's, 'r, 'l> {
    pub page: &'p mut [u8],
    pub sheet: &'s mut Sheet<'r, 'l>,
}
