// Which operator comes.
ghost use Rattle.std.specs.Prelude.{◌≡◌, ◌≤◌, is_some};
ghost use Rattle.descent_lexer.specs.Bytes.{begins_operator};
ghost use Rattle.descent_lexer.specs.Text.{left};

use super::item::Operator;
use super::text::Text;

// The longest operator that begins with the byte `first`, which the text has just passed over; a newline and the
// parentheses are complete at once.
pub fn operator_after(first: u8, text: &mut Text) -> Option<Operator>
    ensures known { is_some result ≡ begins_operator first }
    ensures on { left text.new ≤ left text.old }
{
    match first {
        b'\n' => Some(Operator::Newline),
        b'(' => Some(Operator::Open),
        b')' => Some(Operator::Close),
        b'&' => Some(doubled(text, b'&', Operator::AndIf, Operator::And)),
        b'|' => Some(doubled(text, b'|', Operator::OrIf, Operator::Pipe)),
        b';' => Some(doubled(text, b';', Operator::DoubleSemicolon, Operator::Semicolon)),
        b'<' => Some(after_less(text)),
        b'>' => Some(after_great(text)),
        _ => None,
    }
}

fn doubled(text: &mut Text, next: u8, long: Operator, short: Operator) -> Operator
    ensures { left text.new ≤ left text.old }
{
    if text.takes(next) { long } else { short }
}

fn after_less(text: &mut Text) -> Operator
    ensures { left text.new ≤ left text.old }
{
    if text.takes(b'<') {
        return doubled(
            text,
            b'-',
            Operator::HereDocumentTabs,
            Operator::HereDocument,
        );
    }
    if text.takes(b'&') {
        return Operator::LessAnd;
    }
    doubled(text, b'>', Operator::ReadWrite, Operator::Less)
}

fn after_great(text: &mut Text) -> Operator
    ensures { left text.new ≤ left text.old }
{
    if text.takes(b'>') {
        return Operator::Append;
    }
    if text.takes(b'&') {
        return Operator::GreatAnd;
    }
    doubled(text, b'|', Operator::Clobber, Operator::Great)
}
