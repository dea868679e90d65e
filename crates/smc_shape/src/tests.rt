ghost use Rattle.std.specs.Prelude.{◌≡◌, [], ◌∷◌};
ghost use Rattle.smc_shape.specs.Layout.{asked};

use crate::{CollShape, Place, Shape, ShapeFault};
use std::alloc::{AllocError, Global};
use std::process::Abort;

/// The words of the shape, or its fault.
fn words(
    alloc: Global,
    passes: u32,
    colls: &[CollShape],
) -> Result<Result<usize, ShapeFault>, AllocError> {
    let colls = Vec::from_slice(alloc, colls)?;
    Ok(Shape::new(passes, colls).map(|shape| shape.words()))
}

fn coll(width: u32, slots: u32) -> CollShape
    ensures { result ≡ record { width = width; slots = slots } }
{
    CollShape { width, slots }
}

#[test]
fn shapes_are_accepted_or_refused(rt: HostRuntime) -> Result<(), AllocError> {
    let alloc = rt.alloc();
    let cases: [(u32, &[CollShape], Result<usize, ShapeFault>); 17] = [
        (1, &[], Err(ShapeFault::NoCollections)),
        (1, &[coll(1, 64); 255], Ok(81_603)),
        (1, &[coll(1, 64); 256], Err(ShapeFault::TooManyCollections)),
        (0, &[coll(0, 64); 256], Err(ShapeFault::TooManyCollections)),
        (0, &[coll(1, 64)], Err(ShapeFault::Passes)),
        (33, &[coll(1, 64)], Err(ShapeFault::Passes)),
        (33, &[coll(0, 0)], Err(ShapeFault::Passes)),
        (1, &[coll(0, 64)], Err(ShapeFault::Width)),
        (1, &[coll(65, 64)], Err(ShapeFault::Width)),
        (1, &[coll(65, 63)], Err(ShapeFault::Width)),
        (1, &[coll(1, 0)], Err(ShapeFault::Slots)),
        (1, &[coll(1, 63), coll(0, 64)], Err(ShapeFault::Slots)),
        (
            1,
            &[coll(60, 4_194_304), coll(1, 63)],
            Err(ShapeFault::Slots),
        ),
        (1, &[coll(60, 4_194_304)], Err(ShapeFault::TooLarge)),
        (1, &[coll(60, 4_194_240)], Ok(268_431_363)),
        (32, &[coll(19, 11_671_104)], Ok(268_435_426)),
        (1, &[coll(28, 60_224)], Ok(1_927_171)),
    ];
    for (case, (passes, colls, want)) in cases.iter().enumerate() {
        assert_eq!(rt; words(alloc, *passes, colls)?, *want, "at {case}");
    }
    Ok(())
}

#[test]
fn places_follow_one_another(rt: HostRuntime) -> Result<(), AllocError> {
    let colls = Vec::from_slice(rt.alloc(), &[coll(1, 64), coll(2, 128)])?;
    match Shape::new(2, colls) {
        Ok(shape) => check_places(&rt, &shape),
        Err(fault) => assert!(rt; false, "{fault}"),
    }
    Ok(())
}

/// Expects the places of two passes and two collections.
fn check_places(rt: &impl Abort, shape: &Shape)
    requires { shape.now ≡ asked 2 (record { width = 1; slots = 64 } ∷ record { width = 2; slots = 128 } ∷ []) }
{
    assert_eq!(rt;
        (shape.passes(), shape.colls(), shape.words()),
        (2, 2, 1_092)
    );
    assert_eq!(rt;
        (shape.width(1), shape.slots(1), shape.entries(1)),
        (2, 128, 128)
    );
    assert_eq!(rt; shape.at(Place::Epoch), 0);
    assert_eq!(rt; shape.at(Place::Round), 1);
    assert_eq!(rt; shape.section_at(1), 3);
    assert_eq!(rt; shape.entry_at(0, 0), 4);
    assert_eq!(rt; shape.entry_at(1, 5), 329);
    assert_eq!(rt; shape.dir_at(1, 127), 579);
    assert_eq!(rt; shape.back_at(1, 0), 580);
    assert_eq!(rt; shape.fwd_at(1, 3), 711);
    assert_eq!(rt; shape.field_at(1, 0, 0), 836);
    assert_eq!(rt; shape.field_at(1, 3, 1), 903);
    assert_eq!(rt; shape.first_field_at(1, 64), 964);
    assert_eq!(rt; shape.field_at(1, 127, 1), 1_091);
}

#[test]
fn a_fault_names_its_limit(rt: HostRuntime) -> Result<(), AllocError> {
    let text = format!(in rt.alloc(); "{}", ShapeFault::TooManyCollections)?;
    assert_eq!(rt; text.as_str(), "more than 255 collections");
    Ok(())
}
