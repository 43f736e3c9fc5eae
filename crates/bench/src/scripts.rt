// The scripts that are listed.
use std::alloc::{AllocError, Global};

#[derive(Clone, Copy)]
pub struct Family {
    pub name: &'static str,
    // a script of 16 bytes
    short: &'static str,
    // what longer scripts repeat
    piece: &'static str,
}

impl Family {
    pub const ALL: [Family; 4] = [
        Family {
            name: "words",
            short: "cp lot out; sync",
            piece: "tar cf lots.tar orders articles formats | gzip -9 >lots.tgz; echo packed\n",
        },
        Family {
            name: "quotes",
            short: "echo 'a b' \"c\" d",
            piece: "print 'lot 7' \"article $name of 12\" it\\'s >>log 2>&1\n",
        },
        Family {
            name: "substitutions",
            short: "echo $(ls) $(id)",
            piece: "count $(wc -l $(find lots)) \"last $(date)\" | sort\n",
        },
        Family {
            name: "documents",
            short: "cat <<E\nlots\nE\n:",
            piece: "cat <<END >note\nlot seven of the night shift, format B\nEND\n",
        },
    ];

    // A script of `n` bytes: as many whole pieces as there is room for, and then blanks.
    pub fn script(&self, heap: Global, n: usize) -> Result<Vec<u8>, AllocError> {
        let mut script = Vec::new(heap);
        let piece = if n <= 16 { self.short } else { self.piece };
        for _ in 0..n.checked_div(piece.len()).unwrap_or(0) {
            script.extend_from_slice(piece.as_bytes())?;
        }
        script.resize(n, b' ')?;
        Ok(script)
    }
}
