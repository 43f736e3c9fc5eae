// Where symbols come from: scripts, templates, and the values of aliases in front of either.
#![tactic(auto)]

pub mod alias;
pub mod script;
pub mod source;
pub mod symbol;
pub mod template;

#[cfg(test)]
mod tests {
    use crate::alias::AliasSource;
    use crate::script::ScriptSource;
    use crate::source::Source;
    use crate::symbol::{Sign, Symbol};
    use crate::template::{TemplateSource, first_bad_hole};
    use aliases::table::AliasTable;

    fn next<S: Source>(source: &mut S) -> Option<Symbol> {
        let s = source.look();
        source.take();
        s
    }

    fn byte(b: u8, place: u16) -> Option<Symbol> {
        Some(Symbol {
            sign: Sign::Byte(b),
            place,
        })
    }

    #[test]
    fn reads_holes(rt: HostRuntime) {
        let mut t = TemplateSource::new(b"a@{3}@");
        assert_eq!(rt; next(&mut t), byte(b'a', 0));
        assert_eq!(rt;
            next(&mut t),
            Some(Symbol {
                sign: Sign::Hole(3),
                place: 1,
            })
        );
        assert_eq!(rt; next(&mut t), byte(b'@', 5));
        assert_eq!(rt; next(&mut t), None);
        assert_eq!(rt; t.end_place(), 6);
        assert_eq!(rt; first_bad_hole(b"a@{3}@{x}"), Some(5));
        assert_eq!(rt; first_bad_hole(b"a@{3}@ {"), None);
    }

    #[test]
    fn replaces_in_front_of_any_source(rt: HostRuntime) {
        let mut table = AliasTable::new();
        assert!(rt; table.define(b"a", b"b").is_ok());
        let below = AliasSource::new(ScriptSource::new(b"x"), &table);
        let mut s = AliasSource::new(below, &table);
        assert!(rt; s.replace(b"b", 7) == Ok(false));
        assert!(rt; s.replace(b"a", 7) == Ok(true));
        assert!(rt; s.replace(b"a", 7) == Ok(false));
        assert_eq!(rt; next(&mut s), byte(b'b', 7));
        assert!(rt; s.is_open(b"a"));
        assert_eq!(rt;
            next(&mut s),
            Some(Symbol {
                sign: Sign::AliasEnd,
                place: 7,
            })
        );
        assert!(rt; !s.is_open(b"a"));
        assert_eq!(rt; next(&mut s), byte(b'x', 0));
        assert_eq!(rt; next(&mut s), None);
    }
}
