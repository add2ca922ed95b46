// Tests that a tree in memory of its own answers: no contract says that memory is left.
#![tactic(auto)]

#[cfg(test)]
mod tests {
    use faults::{Fault, Reason};
    use jobs::verdict::{Cause, Verdict};
    use orders::side::Side;
    use service::refusal::Refusal;
    use service::tree::Tree;
    use std::alloc::Global;
    use terms::key::Term;

    // The house prefers nut; a list below it bans nut.
    const FILE: &[u8; 40] =
        b"V\x00\x02\x00\x01L\x00\x01\x00E\x00\x07\x00\x00\x00\x04nutL\x00\x01\x00E\x00\x07\x00\x00\x00\x02nutZ\x00\x04\x00\x00\x00\x02";

    // The number of entries of nut at a list, and their marks together.
    fn nuts(heap: Global, list: usize) -> Result<(usize, u32), Refusal> {
        let tree = Tree::load(heap, FILE)?;
        let nut = Term::new(b"nut")?;
        let found = tree.ask(heap, |index| index.offer(list, &nut))?;
        Ok((found.entries, found.payload.bits))
    }

    #[test]
    fn asked(rt: HostRuntime) {
        assert_eq!(rt; nuts(rt.alloc(), 0), Ok((1, 4)));
        assert_eq!(rt; nuts(rt.alloc(), 1), Ok((2, 6)));
        let no_list = Fault::new(Reason::NoSuchList, 2, 0);
        assert_eq!(rt; nuts(rt.alloc(), 2), Err(Refusal::Fault(no_list)));
    }

    // The high-side place of nut in the list below, the verdict on it there, and how many lines of a sheet are withheld.
    fn below(heap: Global) -> Result<(usize, Verdict, usize), Refusal> {
        let tree = Tree::load(heap, FILE)?;
        let nut = Term::new(b"nut")?;
        let place = tree.look_up(heap, 1, &nut, Side::High)?.stops[1].place;
        let verdict = tree.judge(heap, 1, &nut)?;
        let count = tree.count_job(heap, 1, b"nut\ncap\n")?;
        Ok((place, verdict, count.withheld))
    }

    #[test]
    fn asked_by_name(rt: HostRuntime) {
        let banned = Verdict::Withheld(Cause::Ban);
        assert_eq!(rt; below(rt.alloc()), Ok((1, banned, 1)));
    }
}
