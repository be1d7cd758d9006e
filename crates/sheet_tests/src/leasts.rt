// Least figures of the worked sheet, and of small sheets whose ways are enumerated.
use crate::sheets;
use crate::skewed::Skewed;
use crate::worked::{FILE, replaced};
use least::Entry;
use measures::{Chain, Fees, Measure, Minutes};
use sheet::{Draft, Issued};
use std::test::Fail;

// Bytes of the worked file that are replaced, as in `reading`; then its least minutes, chain and fees, or the number of the
// refusal.
const SHEETS: [(usize, usize, &[u8], Result<(u32, u32, u32), u8>); 6] = [
    (0, 0, &[], Ok((13, 7, 0))),
    // step 3 closed
    (55, 56, &[1], Ok((14, 7, 0))),
    // step 5 closed
    (83, 84, &[1], Ok((13, 9, 0))),
    // step 0 closed
    (13, 14, &[1], Err(31)),
    // fees of 9 cents for step 3 and of 2 for step 5
    (
        58,
        87,
        b"\x09\x00\x00\x00\x0a\x00\x02\x00\x01\x00\x01\x00\x01\x00\x00\x00\x00\x00\x0a\x00\x02\x00\x04\x00\x01\x00\x03\x00\x02",
        Ok((13, 7, 2)),
    ),
    // step 1 an OR step without feeders: 3 and 4 lead into 0
    (
        52,
        67,
        b"\x00\x00\x01\x00\x06\x00\x00\x00\x00\x00\x0a\x00\x02\x00\x00",
        Err(31),
    ),
];

// The least figure of a sheet, or the number of the refusal.
fn least<M: Measure<Figure = u32>>(sheet: &Issued, measure: &M) -> Result<u32, u8> {
    let mut table = [Entry {
        found: true,
        figure: 77u32,
    }; 256];
    sheet.least(measure, &mut table).map_err(u8::from)
}

fn counter_figures(sheet: &Issued) -> Result<(u32, u32, u32), u8> {
    Ok((
        least(sheet, &Minutes)?,
        least(sheet, &Chain)?,
        least(sheet, &Fees)?,
    ))
}

#[test]
fn worked_figures(rt: HostRuntime) -> Result<(), Fail> {
    for (from, to, new, expected) in SHEETS {
        let mut sheet = Draft::new().issue();
        assert!(rt;
            sheet
                .read(replaced(rt.alloc(), from, to, new)?.as_slice())
                .is_ok()
        );
        assert_eq!(rt; counter_figures(&sheet), expected);
        assert_eq!(rt; least(&sheet, &Chain), expected.map(|figures| figures.1));
        assert_eq!(rt; least(&sheet, &Fees), expected.map(|figures| figures.2));
    }
    Ok(())
}

// Steps 3 and 5 closed: the table is filled all the same, and its rest is kept.
#[test]
fn filled_table(rt: HostRuntime) {
    let mut file = FILE;
    file[55] = 1;
    file[83] = 1;
    let mut sheet = Draft::new().issue();
    assert!(rt; sheet.read(&file).is_ok());
    let mut table = [Entry {
        found: true,
        figure: 77u32,
    }; 9];
    assert!(rt; sheet.least(&Minutes, &mut table[0..6]).is_err());
    assert!(rt; table[0].figure == 77);
    assert!(rt; sheet.least(&Minutes, &mut table).is_err());
    let expected = [
        (false, 0),
        (false, 0),
        (true, 4),
        (false, 0),
        (false, 0),
        (false, 0),
        (true, 3),
        (true, 77),
        (true, 77),
    ];
    for (entry, pair) in table.iter().zip(expected.iter()) {
        assert_eq!(rt; (entry.found, entry.figure), *pair);
    }
}

#[test]
fn enumerated(rt: HostRuntime) {
    for (i, (file, expected)) in sheets::SHEETS.iter().enumerate() {
        let mut sheet = Draft::new().issue();
        assert!(rt; sheet.read(file).is_ok());
        let figures = least(&sheet, &Skewed)
            .and_then(|skewed| {
                let (minutes, chain, fees) = counter_figures(&sheet)?;
                Ok((minutes, chain, fees, skewed))
            })
            .ok();
        assert_eq!(rt; figures, *expected, "sheet {i}");
    }
}
