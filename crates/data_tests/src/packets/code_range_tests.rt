//! The type of one's own, both ways, and cut short.
use crate::CodeRange;
use crate::packets::rows::are_so;
use jdwp_wire::IdSizes;

const RANGES: &str = "0000000000000000.0000000000000102 = CodeRange { first: 0, last: 258 }
0000000000000000.00000000000001 ! 11 Short(15)";

#[test]
fn a_type_of_ones_own(rt: HostRuntime) {
    let sizes = IdSizes::new(1, 1, 1, 1, 1).expect(&rt, "widths");
    are_so::<_, CodeRange>(&rt, rt.alloc(), &sizes, RANGES);
}
