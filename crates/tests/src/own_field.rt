// Rooting over a field that somebody brought, and that owns memory.
use crate::brute::agrees;
use nine::Nine;
use roots::draft::Draft;
use std::test::Fail;

#[test]
fn nine_elements(rt: HostRuntime) -> Result<(), Fail> {
    let mut draft = Draft::start(Nine::new(rt.alloc())?);
    assert_eq!(rt; draft.seek_fourth(), Ok(3));
    let plan = draft.close();
    assert_eq!(rt; plan.root(7), Ok(((4, 8), (6, 0))));
    agrees(&rt, &plan);
    Ok(())
}
