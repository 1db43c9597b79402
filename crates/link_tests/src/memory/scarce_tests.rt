//! Requests that are refused one after the other.
use std::alloc::{AllocError, Global};
use std::process::Abort;
use std::test::Fail;
use test_parts::Scarce;

/// What a call asks for, in order; what the third request got is given back before the fourth.
const REQUESTS: usize = 5;

/// The place of the first request that is refused, from 0; None where none is.
fn first_refused(alloc: Global) -> Option<usize> {
    let Ok(_first) = block(alloc, 10) else {
        return Some(0);
    };
    let Ok(_second) = block(alloc, 300) else {
        return Some(1);
    };
    let Ok(third) = block(alloc, 3000) else {
        return Some(2);
    };
    drop(third);
    let Ok(_fourth) = block(alloc, 40) else {
        return Some(3);
    };
    let Ok(_last) = block(alloc, 5000) else {
        return Some(4);
    };
    None
}

fn block(alloc: Global, size: usize) -> Result<Vec<u8>, AllocError> {
    Vec::with_capacity(alloc, size)
}

/// At which places the call is refused while it is repeated, and whether it meets no refusal in the end.
fn refused(alloc: Global, scarce: &mut Scarce) -> ([bool; REQUESTS], bool) {
    let mut found = [false; REQUESTS];
    for _ in 0..scarce.crumbs() {
        match first_refused(alloc) {
            Some(place) => {
                if place < REQUESTS {
                    found[place] = true;
                }
            }
            None => return (found, true),
        }
        scarce.give();
    }
    (found, false)
}

/// Each request that needs more than those before it is refused in turn, and the one that finds what was freed is not; so it is again once
/// all was given back.
#[test]
fn each_request_is_refused_in_turn(rt: HostRuntime) -> Result<(), Fail> {
    let mut scarce = Scarce::take(rt.alloc(), 16)?;
    for _ in 0..3u32 {
        assert!(rt; scarce.starve());
        let found = refused(rt.alloc(), &mut scarce);
        scarce.relieve();
        assert_eq!(rt; found, ([true, true, true, false, true], true));
    }
    Ok(())
}

/// All is given back.
#[test]
fn what_is_taken_is_given_back(rt: HostRuntime) -> Result<(), Fail> {
    let mut scarce = Scarce::take(rt.alloc(), 0)?;
    let taken = scarce.starve();
    drop(scarce);
    assert!(rt; taken);
    assert!(rt; block(rt.alloc(), 1 << 24).is_ok());
    Ok(())
}
