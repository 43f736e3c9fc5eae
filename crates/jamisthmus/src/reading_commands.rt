// list and check.
use crate::command::Text;
use crate::input::read_text;
use crate::sheets::{Unlisted, list_script};
use basics::refusal::Refusal;
use json_lines::{JsonHoles, JsonItems, JsonRefusal};
use listing::check::check_template;
use views::caret::Pointed;
use views::holes::Holes;
use views::table::Table;

// Shows what was refused of the bytes that were read.
fn show_refusal(
    rt: &HostRuntime,
    refusal: Refusal,
    bytes: &[u8],
    json: bool,
) -> anyhow::Result<()> {
    if json {
        rt.print(JsonRefusal(refusal))?;
    } else {
        rt.print(Pointed::new(rt.alloc(), refusal, bytes)?)?;
    }
    Ok(())
}

pub fn list(rt: &HostRuntime, text: &Text) -> anyhow::Result<()> {
    let script = read_text(rt, &text.file)?;
    match list_script(rt.alloc(), script.as_slice(), &text.aliases) {
        Ok(listed) if text.json => rt.print(JsonItems(&listed))?,
        Ok(listed) => rt.print(Table(&listed))?,
        Err(Unlisted::Refused(refusal)) => {
            show_refusal(rt, refusal, script.as_slice(), text.json)?;
        }
        Err(e) => return Err(e.into()),
    }
    Ok(())
}

pub fn check(rt: &HostRuntime, text: &Text) -> anyhow::Result<()> {
    let template = read_text(rt, &text.file)?;
    match check_template(template.as_slice(), &text.aliases).map(Holes) {
        Ok(holes) if text.json => rt.print(JsonHoles(holes))?,
        Ok(holes) => println!(rt; "accepted: {holes}")?,
        Err(refusal) => show_refusal(rt, refusal, template.as_slice(), text.json)?,
    }
    Ok(())
}
