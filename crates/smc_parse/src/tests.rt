//! What a fault says; the gate's `check_queries` reads texts of every kind.
use crate::Fault;
use smc_words::NoMemory;
use std::alloc::AllocFailed;
use std::test::Fail;

#[test]
fn a_fault_says_what_is_wrong(rt: HostRuntime) -> Result<(), Fail> {
    let faults = [
        (Fault::Wrong { index: 3 }, "wrong token 3"),
        (Fault::TooDeep { index: 64 }, "token 64 nests too deeply"),
        (Fault::NoMemory, "no memory"),
    ];
    for (fault, wanted) in faults {
        assert_eq!(rt; format!(in rt.alloc(); "{fault}")?.as_str(), wanted);
    }
    Ok(())
}

#[test]
fn want_of_memory_is_no_wrong_token(rt: HostRuntime) -> Result<(), Fail> {
    assert_eq!(rt; Fault::from(NoMemory), Fault::NoMemory);
    assert_eq!(rt; Fault::from(AllocFailed { value: 7u32 }), Fault::NoMemory);
    Ok(())
}
