ghost use Rattle.std.specs.Prelude.{◌≡◌};

use av_base::Val;
use std::test::Fail;

/// Widths at which a word of the machine ends, each with its greatest number.
const WIDTHS: [(u8, u128); 6] = [
    (1, 0x1),
    (63, 0x7fff_ffff_ffff_ffff),
    (64, 0xffff_ffff_ffff_ffff),
    (65, 0x1_ffff_ffff_ffff_ffff),
    (127, 0x7fff_ffff_ffff_ffff_ffff_ffff_ffff_ffff),
    (128, 0xffff_ffff_ffff_ffff_ffff_ffff_ffff_ffff),
];

/// Whether sums and differences end at the width.
fn sums_end(width: u8, most: u128) -> Option<bool> {
    let top = Val::new(width, most)?;
    let one = Val::new(width, 1)?;
    let zero = Val::new(width, 0)?;
    let got = [top.add(one), top.add(zero), zero.sub(one), top.sub(top)];
    Some(got == [zero, top, top, zero])
}

/// Whether bit by bit operators reach the width.
fn bits_reach(width: u8, most: u128) -> Option<bool> {
    let top = Val::new(width, most)?;
    let zero = Val::new(width, 0)?;
    let got = [zero.not(), zero.or(top), zero.and(top), top.xor(top)];
    Some(got == [top, top, zero, zero])
}

/// Whether comparisons read the whole width.
fn tests_read_all(width: u8, most: u128) -> Option<bool> {
    let top = Val::new(width, most)?;
    let zero = Val::new(width, 0)?;
    let no = Val::new(1, 0)?;
    let yes = Val::new(1, 1)?;
    let got = [
        zero.eq(top),
        top.eq(top),
        zero.less(top),
        top.less(top),
        top.any(),
        zero.any(),
    ];
    Some(got == [no, yes, yes, no, yes, no])
}

/// Whether a choice gives the whole width.
fn choices_give_all(width: u8, most: u128) -> Option<bool> {
    let top = Val::new(width, most)?;
    let zero = Val::new(width, 0)?;
    let got = [zero.any().mux(top, zero), top.any().mux(top, zero)];
    Some(got == [zero, top])
}

#[test]
fn operators_end_at_the_width(rt: HostRuntime) {
    for (width, most) in WIDTHS {
        let got = [
            sums_end(width, most),
            bits_reach(width, most),
            tests_read_all(width, most),
            choices_give_all(width, most),
        ];
        assert_eq!(rt; got, [Some(true); 4], "at {width}");
    }
}

fn parts_of(wide: Val) -> [u128; 3]
    requires { wide.width ≡ 128 }
{
    [
        wide.slice(67, 60).bits(),
        wide.slice(127, 64).bits(),
        wide.slice(4, 4).bits(),
    ]
}

/// The whole value by one part, and by two parts joined.
fn wholes_of(wide: Val) -> [Val; 2]
    requires { wide.width ≡ 128 }
{
    [
        wide.slice(127, 0),
        wide.slice(127, 65).concat(wide.slice(64, 0)),
    ]
}

#[test]
fn parts_across_a_machine_word(rt: HostRuntime) -> Result<(), Fail> {
    let wide = Val::new(128, 0x0123_4567_89ab_cdef_fedc_ba98_7654_3210).ok_or("128 bits")?;
    assert_eq!(rt; parts_of(wide), [0xff, 0x0123_4567_89ab_cdef, 1]);
    assert_eq!(rt; wholes_of(wide), [wide, wide]);
    let widths = [wide.slice(64, 0).width(), wide.slice(127, 65).width()];
    assert_eq!(rt; widths, [65, 63]);
    Ok(())
}
