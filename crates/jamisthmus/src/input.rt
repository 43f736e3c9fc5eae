// What a command reads: a file, or standard input where none is named.
use anyhow::anyhow;
use std::fs;
use std::io::Read;

// All of standard input.
pub fn read_input(rt: &HostRuntime) -> anyhow::Result<Vec<u8>> {
    let mut text = Vec::new(rt.alloc());
    rt.stdin().read_to_end(&mut text)?;
    Ok(text)
}

// All of the file, or of standard input.
pub fn read_text(rt: &HostRuntime, file: &Option<String>) -> anyhow::Result<Vec<u8>> {
    let Some(path) = file else {
        return read_input(rt);
    };
    fs::read(rt, path.as_str()).map_err(|e| anyhow!("name a file that can be read ({e}): {path}"))
}
