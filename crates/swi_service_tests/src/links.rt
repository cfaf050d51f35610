use std::test::Fail;
use swi_devices::VecRam;
use swi_isa::EBREAK;
use swi_links::{Chains, undo};
use swi_outside::CacheRam;

#[test]
fn words_leave_a_list_in_any_order(rt: HostRuntime) -> Result<(), Fail> {
    let mut chains = Chains::new(rt.alloc(), 2, 10)?;
    chains.link(6, 0);
    chains.link(3, 0);
    chains.link(8, 1);
    let before = (
        chains.first_into(0),
        chains.target(6),
        chains.first_linked(4, 8),
        chains.first_linked(7, 8),
    );
    assert_eq!(rt; before, (Some(3), Some(0), Some(6), None));
    assert_eq!(rt; chains.first_linked(0, 10), Some(3));
    chains.unlink(3);
    let after = (chains.first_into(0), chains.target(3), chains.first_into(1));
    assert_eq!(rt; after, (Some(6), None, Some(8)));
    Ok(())
}

#[test]
fn the_first_linked_word_of_a_range_is_found(rt: HostRuntime) -> Result<(), Fail> {
    let mut chains = Chains::new(rt.alloc(), 2, 40)?;
    chains.link(20, 1);
    chains.link(31, 0);
    let found = [
        chains.first_linked(0, 40),
        chains.first_linked(13, 21),
        chains.first_linked(21, 40),
        chains.first_linked(0, 20),
        chains.first_linked(32, 40),
        chains.first_linked(40, 40),
    ];
    assert_eq!(rt; found, [Some(20), Some(20), Some(31), None, None, None]);
    Ok(())
}

#[test]
fn block_leaves_with_its_links(rt: HostRuntime) -> Result<(), Fail> {
    let mut ram = VecRam::new(rt.alloc(), 12)?;
    let mut chains = Chains::new(rt.alloc(), 3, 12)?;
    // The block of list 1 has the words 4 to 7: one leads into the block itself, one into another.
    chains.link(5, 1);
    chains.link(6, 2);
    chains.link(9, 1);
    chains.link(10, 0);
    assert_eq!(rt; undo(&mut chains, 1, 4, 4, &mut ram)?, 1);
    assert_eq!(rt; (ram.word(9), ram.word(5)), (EBREAK, 0));
    let targets = (chains.target(9), chains.target(6), chains.target(10));
    assert_eq!(rt; targets, (None, None, Some(0)));
    Ok(())
}
