use std::test::Fail;
use swap_store::{Blocks, Slabs};

#[test]
fn a_page_is_read_as_it_was_written(rt: HostRuntime) -> Result<(), Fail> {
    let mut blocks = Blocks::make(rt.alloc(), 3, 2).map_err(|_| "memory")?;
    blocks.write(1, &[7, 8]);
    blocks.fill(2, 255);
    let mut read = [[9; 2]; 3];
    blocks.read(0, &mut read[0]);
    blocks.read(1, &mut read[1]);
    blocks.read(2, &mut read[2]);
    assert_eq!(rt; read, [[0, 0], [7, 8], [255, 255]]);
    Ok(())
}

#[test]
fn a_slab_is_cleared_and_no_other(rt: HostRuntime) -> Result<(), Fail> {
    let mut slabs = Slabs::make(rt.alloc(), 2, 2, 1).map_err(|_| "memory")?;
    slabs.write(0, 1, &[5]);
    slabs.write(1, 0, &[6]);
    assert_eq!(rt; slabs.page(0, 1)[0], 5);
    slabs.clear(1);
    assert_eq!(rt; slabs.page(1, 0)[0], 0);
    slabs.clear_all();
    assert_eq!(rt; slabs.page(0, 1)[0], 0);
    Ok(())
}
