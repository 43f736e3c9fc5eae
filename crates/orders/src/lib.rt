// Orders: what a controller holds for one template, and the calls that are made on it.
#![tactic(auto)]

pub mod call;
pub mod calls;
pub mod contents;
pub mod desk;
pub mod laws;
pub mod lists;
pub mod order;
pub mod outcome;
pub mod run;
pub mod template;
pub mod text;

#[cfg(test)]
mod tests {
    use crate::call::Call;
    use crate::contents::Contents;
    use crate::desk::Desk;
    use crate::order::Order;
    use crate::outcome::Done;
    use crate::run::replay;
    use basics::refusal::Reason;
    use listing::list::NO_RECORD;
    use listing::record::Sheet;
    use quoting::single::Single;
    use std::alloc::AllocError;

    #[test]
    fn holds_one_template_at_a_time(rt: HostRuntime) {
        let mut order = Order::new(Single);
        assert_eq!(rt; order.unload(), Err(Reason::NoTemplate.at(0)));
        assert!(rt; order.load(b"x=@{0} a $(b @{1})").is_ok());
        assert_eq!(rt; order.load(b"a"), Err(Reason::TemplateLoaded.at(0)));
        assert_eq!(rt;
            order.alias(b"ls", b"ls -l"),
            Err(Reason::TemplateLoaded.at(0))
        );
        assert!(rt; order.unload().is_ok());
        assert!(rt; order.load(b"a").is_ok());
    }

    #[test]
    fn reads_a_template_under_the_aliases(rt: HostRuntime) {
        let mut order = Order::new(Single);
        assert_eq!(rt; order.load(b"@{0} a"), Err(Reason::HoleNotTaken.at(0)));
        assert_eq!(rt; order.load(b"a @{x}"), Err(Reason::BadHole.at(2)));
        assert!(rt; order.alias(b"a", b"if").is_ok());
        assert_eq!(rt; order.load(b"a b"), Err(Reason::OutOfPlace.at(0)));
        assert!(rt; order.unalias(b"a").is_ok());
        assert!(rt; order.load(b"a b").is_ok());
    }

    #[test]
    fn clones_what_an_order_holds(rt: HostRuntime) -> Result<(), AllocError> {
        let mut contents = Contents::new();
        assert!(rt; contents.load(b"a @{1}").is_ok());
        let mut second = contents.clone()?;
        assert!(rt; second.unload().is_ok());
        assert_eq!(rt; contents.load(b"a"), Err(Reason::TemplateLoaded.at(0)));
        assert_eq!(rt; contents.template.clone()?.holes, 2);
        assert_eq!(rt; contents.texts[0].clone()?.len, 0);
        Ok(())
    }

    #[test]
    fn replays_calls(rt: HostRuntime) {
        let calls = [
            Call::Alias(b"ls", b"ls -l"),
            Call::Unalias(b"la"),
            Call::List(b"ls"),
            Call::Unload,
        ];
        let mut records = [NO_RECORD; 4];
        let mut letters = [0; 8];
        let mut page = [0; 1];
        let mut sheet = Sheet::new(&mut records, &mut letters);
        let mut desk = Desk {
            page: &mut page,
            sheet: &mut sheet,
        };
        let mut outcomes = [Ok(Done::Accepted); 3];
        let _ = replay(Single, &calls, &mut desk, &mut outcomes);
        assert_eq!(rt; outcomes[0], Ok(Done::Accepted));
        assert_eq!(rt; outcomes[1], Err(Reason::NoSuchAlias.at(0)));
        assert_eq!(rt; outcomes[2], Ok(Done::Listed(2)));
        assert_eq!(rt; sheet.counts.letters, 4);
    }
}
