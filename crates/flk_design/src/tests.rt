//! What the table answers, against numbers of an independent computation.

use crate::{design, design_at};
use flk_num::{Lamp, Rate};
use std::test::Fail;

#[test]
fn first_and_last_section(rt: HostRuntime) -> Result<(), Fail> {
    let sections = design(Lamp::L230);
    assert_eq!(rt; sections[0].b0, 4_294_686_209);
    assert_eq!(rt; sections[0].b1, -4_294_686_209);
    assert_eq!(rt; sections[0].a1, -4_294_405_123);
    assert_eq!(rt; sections[6].b1, 119_692_743);
    assert_eq!(rt; sections[6].a1, -4_055_581_809);
    assert_eq!(rt; design(Lamp::L120)[4].a2, 4_202_274_093);
    Ok(())
}

#[test]
fn first_and_last_section_at_4800(rt: HostRuntime) -> Result<(), Fail> {
    let sections = design_at(Lamp::L230, Rate::R4800);
    assert_eq!(rt; sections[0].b0, 4_294_826_748);
    assert_eq!(rt; sections[0].b1, -4_294_826_748);
    assert_eq!(rt; sections[0].a1, -4_294_686_200);
    assert_eq!(rt; sections[6].b0, 60_692_059);
    assert_eq!(rt; sections[6].b1, 60_692_059);
    assert_eq!(rt; sections[6].a1, -4_173_583_178);
    Ok(())
}
