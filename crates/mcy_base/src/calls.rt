//! Numbers of calls, by which the objects in memory are told which of their calls fail.
//!
//! Calls are counted from 0. A call that no `u64` numbers is `None`, and is in no list.
ghost use Rattle.std.specs.Prelude.{◌≡◌};
ghost use Rattle.mcy_base.specs.Calls.{at_call, call_after};

/// What a list says of this call, where it is in the list. Where a number stands twice, the first counts.
pub fn at_call<T: Copy>(calls: &[(u64, T)], call: Option<u64>) -> Option<T>
    ensures { result ≡ at_call calls.now call }
{
    let call = call?;
    let mut rest = calls;
    while let [(number, what), more @ ..] = rest {
        if *number == call {
            return Some(*what);
        }
        rest = more;
    }
    None
}

/// The call after this one.
pub fn call_after(call: Option<u64>) -> Option<u64>
    ensures { result ≡ call_after call }
{
    call?.checked_add(1)
}
