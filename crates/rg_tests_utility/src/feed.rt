use rg_feed::ends::feed;
use std::test::Fail;

fn moved_to_a_thread<T: Send>(value: T) -> T {
    value
}

#[test]
fn ends_may_move_to_a_thread(rt: HostRuntime) -> Result<(), Fail> {
    let (outlet, inlet) = feed(rt.alloc())?;
    let outlet = moved_to_a_thread(outlet);
    let inlet = moved_to_a_thread(inlet);
    assert_eq!(rt; (outlet.pending(), inlet.backlog()), (0, 0));
    Ok(())
}
