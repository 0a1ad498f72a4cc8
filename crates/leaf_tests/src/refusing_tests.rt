//! Which allocation a `Refusing` refuses.
use refusing::Refusing;
use std::alloc::Global;
use std::test::Fail;

/// Whether the next allocation is refused. What it allocates is dropped at once.
fn is_refused(memory: &Refusing<Global>) -> bool {
    Box::new(memory, 0u8).is_err()
}

#[test]
fn refuses_that_allocation_alone(rt: HostRuntime) -> Result<(), Fail> {
    let memory = Refusing::new(rt.alloc(), 1);
    assert!(rt; is_refused(&memory) && memory.has_refused());
    for at in 1..4 {
        memory.refuse(at);
        for number in 1..=at {
            assert!(rt; !memory.has_refused(), "{number} of {at}");
            assert_eq!(rt; is_refused(&memory), number == at);
        }
        assert!(rt; memory.has_refused(), "{at}");
        assert!(rt; !is_refused(&memory), "after {at}");
    }
    memory.refuse(0);
    assert!(rt; !is_refused(&memory));
    Ok(())
}
