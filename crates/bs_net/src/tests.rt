use crate::{Costs, NetFault, Place, Torus, home, latency};
use bs_tree::List;
use std::alloc::{AllocError, Global};
use std::test::Fail;

fn list(alloc: Global, numbers: &[u32]) -> Result<List<u32>, AllocError> {
    Ok(List::from_vec(numbers.to_vec(alloc)?))
}

#[test]
fn messages_go_the_shorter_way_round_each_ring(rt: HostRuntime) -> Result<(), Fail> {
    let torus = match Torus::new(list(rt.alloc(), &[4, 4])?, 2) {
        Ok(torus) => torus,
        Err(_) => return Err("refused".into()),
    };
    let costs = Costs {
        own: 1,
        local: 2,
        base: 5,
        hop: 3,
        num: 1,
        den: 64,
    };
    assert_eq!(rt; torus.processors(), 32);
    if torus.processors() == 32 {
        assert_eq!(rt; torus.node(31), 15);
        assert_eq!(rt; torus.hops(0, 31), 2);
        assert_eq!(rt; latency(&torus, &costs, 0, 31, 640), 21);
        assert_eq!(rt; latency(&torus, &costs, 0, 1, 640), 2);
        assert_eq!(rt; latency(&torus, &costs, 0, 0, 640), 1);
    }
    Ok(())
}

#[test]
fn a_torus_out_of_its_ranges_is_refused(rt: HostRuntime) -> Result<(), Fail> {
    let cases: [(&[u32], u32); 6] = [
        (&[], 1),
        (&[1, 1, 1, 1, 1, 1, 1], 1),
        (&[4, 0], 1),
        (&[65537], 1),
        (&[65536, 65536, 65536, 65536, 65536, 65536], 1),
        (&[256, 256], 2),
    ];
    for (sizes, per_node) in cases {
        match Torus::new(list(rt.alloc(), sizes)?, per_node) {
            Ok(_) => return Err("not refused".into()),
            Err(fault) => assert_eq!(rt; fault, NetFault::Range),
        }
    }
    Ok(())
}

#[test]
fn blocks_of_chares_are_of_equal_length(rt: HostRuntime) {
    for (chare, processor) in [0, 0, 0, 1, 1, 1, 2, 2, 2, 3].iter().enumerate() {
        assert_eq!(rt; home(&Place::Block, chare as u32, 10, 4), *processor);
    }
    assert_eq!(rt; home(&Place::Cycle, 9, 10, 4), 1);
}
