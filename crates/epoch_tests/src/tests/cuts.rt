use epoch_cut::{cut, from_list};
use std::test::Fail;

#[test]
fn cuts_at_even_places(rt: HostRuntime) -> Result<(), Fail> {
    let rows: [(u32, u32, &[u32]); 5] = [
        (7, 5, &[0, 1, 2, 4, 5, 7]),
        (2, 1, &[0, 2]),
        (2, 2, &[0, 1, 2]),
        (1, 4096, &[0, 1]),
        (4096, 3, &[0, 1365, 2730, 4096]),
    ];
    for (segments, epochs, places) in rows {
        assert!(rt; segments >= 1 && segments <= 4096 && epochs >= 1 && epochs <= 4096);
        let cutting = cut(rt.alloc(), segments, epochs)?;
        assert_eq!(rt; cutting.places(), places);
    }
    Ok(())
}

#[test]
fn takes_a_list_that_is_a_cutting(rt: HostRuntime) -> Result<(), Fail> {
    let rows: [(&[u32], u32, bool); 9] = [
        (&[0, 2, 4], 4, true),
        (&[0, 1], 1, true),
        (&[0], 0, true),
        (&[], 0, false),
        (&[0], 1, false),
        (&[1, 4], 4, false),
        (&[0, 2, 3], 4, false),
        (&[0, 2, 2, 4], 4, false),
        (&[0, 3, 2, 4], 4, false),
    ];
    for (list, segments, is_cutting) in rows {
        let cutting = from_list(rt.alloc(), list, segments)?;
        assert_eq!(rt; cutting.is_some(), is_cutting, "{list:?} of {segments}");
        if let Some(cutting) = cutting {
            assert_eq!(rt; cutting.places(), list);
        }
    }
    Ok(())
}
