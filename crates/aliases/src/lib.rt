// The alias table: up to eight names, each with the value that replaces it.
#![tactic(auto)]

pub mod alias;
pub mod calls;
mod spelling;
pub mod table;

#[cfg(test)]
mod tests {
    use crate::table::AliasTable;
    use basics::refusal::Reason;

    fn stands_for(table: &AliasTable, name: &[u8], value: &[u8]) -> bool {
        table.look_up(name) == Some(value)
    }

    #[test]
    fn defines_and_removes(rt: HostRuntime) {
        let mut table = AliasTable::new();
        assert!(rt; table.define(b"ls", b"ls -l").is_ok());
        assert!(rt; table.define(b"ll", b"ls").is_ok());
        assert!(rt; table.define(b"ls", b"ls -a").is_ok());
        assert!(rt; stands_for(&table, b"ls", b"ls -a"));
        assert!(rt; table.remove(b"ls").is_ok());
        assert!(rt; !stands_for(&table, b"ls", b"ls -a"));
        assert!(rt; stands_for(&table, b"ll", b"ls"));
    }

    #[test]
    fn refuses(rt: HostRuntime) {
        let mut table = AliasTable::new();
        assert_eq!(rt; table.define(b"a b", b"c"), Err(Reason::BadAlias.at(1)));
        assert_eq!(rt; table.define(b"a", b"c;"), Err(Reason::BadAlias.at(1)));
        assert_eq!(rt; table.define(b"a", b" \t"), Err(Reason::BadAlias.at(0)));
        assert_eq!(rt;
            table.define(b"a2345678901234567", b""),
            Err(Reason::TooLong.at(0))
        );
        assert_eq!(rt; table.remove(b"a"), Err(Reason::NoSuchAlias.at(0)));
    }

    #[test]
    fn refuses_a_ninth(rt: HostRuntime) {
        let mut table = AliasTable::new();
        for name in [b"a", b"b", b"c", b"d", b"e", b"f", b"g", b"h"] {
            assert!(rt; table.define(name, b"v").is_ok());
        }
        assert_eq!(rt; table.define(b"i", b"v"), Err(Reason::TooManyAliases.at(0)));
        assert!(rt; table.define(b"h", b"w").is_ok());
    }
}
