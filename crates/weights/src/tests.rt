use crate::*;
use std::num::NonZeroU16;
use std::test::Fail;

#[test]
fn check_multiplies_modulo_257(rt: HostRuntime) -> Result<(), Fail> {
    let top = Check::from_code(256)?;
    assert_eq!(rt; top.code(), 256);
    assert_eq!(rt; top.times(top).code(), 1);
    let three = Check::from_code(3)?;
    assert_eq!(rt; three.inverse().code(), 86);
    assert!(rt; three.inverse().times(three).same(Check::one()));
    Ok(())
}

#[test]
fn wheel_adds_modulo_720(rt: HostRuntime) -> Result<(), Fail> {
    let last = Wheel::from_code(719)?;
    assert_eq!(rt; last.times(Wheel(1)).code(), 0);
    assert!(rt; Wheel(0).same(Wheel(720)));
    assert!(rt; !Wheel(0).same(Wheel(719)));
    assert_eq!(rt; Wheel(0).inverse().code(), 0);
    assert_eq!(rt; Wheel(1).inverse().code(), 719);
    assert_eq!(rt; Wheel(721).inverse().code(), 719);
    Ok(())
}

#[test]
fn beam_wheel_adds_modulo_1440(rt: HostRuntime) -> Result<(), Fail> {
    let turn = BeamWheel::from_code(719)?.times(BeamWheel(1));
    assert_eq!(rt; turn.code(), 720);
    assert!(rt; !turn.same(BeamWheel::one()));
    assert_eq!(rt; turn.times(turn).code(), 0);
    let last = BeamWheel::from_code(1439)?;
    assert_eq!(rt; last.times(BeamWheel(1)).code(), 0);
    assert!(rt; BeamWheel(1440).same(BeamWheel(0)));
    assert_eq!(rt; BeamWheel(0).inverse().code(), 0);
    assert_eq!(rt; BeamWheel(1).inverse().code(), 1439);
    Ok(())
}

#[test]
fn every_number_is_a_place(rt: HostRuntime) {
    assert_eq!(rt; Wheel(65_535).code(), 15);
    assert_eq!(rt; BeamWheel(65_535).code(), 735);
    assert_eq!(rt; BeamWheel(65_535).times(BeamWheel(65_535)).code(), 30);
    assert_eq!(rt; BeamWheel(65_535).inverse().code(), 705);
    assert!(rt; BeamWheel(65_535).same(BeamWheel(735)));
}

#[test]
fn one_place_is_place_0(rt: HostRuntime) {
    let one = NonZeroU16::MIN;
    for (a, b) in [(0, 0), (0, 65_535), (65_535, 0), (65_535, 65_535)] {
        assert_eq!(rt; add_places(one, a, b), 0);
        assert_eq!(rt; invert_place(one, a), 0);
        assert!(rt; same_place(one, a, b));
    }
}

// The first number of places at which a sum of two may leave 16 bits.
#[test]
fn sums_of_32769_places_fit(rt: HostRuntime) {
    let places = NonZeroU16::new(32_769).unwrap();
    assert_eq!(rt; add_places(places, 0, 0), 0);
    assert_eq!(rt; add_places(places, 32_768, 0), 32_768);
    assert_eq!(rt; add_places(places, 1, 32_768), 0);
    assert_eq!(rt; add_places(places, 32_768, 32_768), 32_767);
    assert_eq!(rt; add_places(places, 65_535, 65_535), 32_763);
    assert_eq!(rt; invert_place(places, 0), 0);
    assert_eq!(rt; invert_place(places, 32_768), 1);
    assert_eq!(rt; invert_place(places, 65_535), 3);
    assert!(rt; same_place(places, 65_535, 32_766));
    assert!(rt; !same_place(places, 32_768, 0));
}

#[test]
fn sums_of_65535_places_fit(rt: HostRuntime) {
    let places = NonZeroU16::MAX;
    assert_eq!(rt; add_places(places, 0, 65_535), 0);
    assert_eq!(rt; add_places(places, 65_534, 0), 65_534);
    assert_eq!(rt; add_places(places, 65_534, 1), 0);
    assert_eq!(rt; add_places(places, 65_534, 65_534), 65_533);
    assert_eq!(rt; add_places(places, 65_535, 65_535), 0);
    assert_eq!(rt; invert_place(places, 0), 0);
    assert_eq!(rt; invert_place(places, 1), 65_534);
    assert_eq!(rt; invert_place(places, 65_535), 0);
    assert!(rt; same_place(places, 65_535, 0));
    assert!(rt; !same_place(places, 65_534, 0));
}

#[test]
fn pair_works_part_by_part(rt: HostRuntime) {
    let x = Pair {
        left: Wheel(719),
        right: Check(0),
    };
    let y = x.times(Pair {
        left: Wheel(2),
        right: Check(0),
    });
    assert_eq!(rt; y.left.code(), 1);
    assert_eq!(rt; y.right.code(), 1);
    assert!(rt; y.times(y.inverse()).same(Pair::<Wheel, Check>::one()));
    assert!(rt; !y.same(x));
}

#[test]
fn other_codes_are_refused_with_4(rt: HostRuntime) {
    assert_eq!(rt; Plain::from_code(1).err(), Some(Refusal::NoCode));
    assert_eq!(rt; Check::from_code(0).err(), Some(Refusal::NoCode));
    assert_eq!(rt; Check::from_code(257).err(), Some(Refusal::NoCode));
    assert_eq!(rt; Wheel::from_code(720).err(), Some(Refusal::NoCode));
    assert_eq!(rt; BeamWheel::from_code(1440).err(), Some(Refusal::NoCode));
    assert_eq!(rt; Refusal::NoCode.number(), 4);
}
