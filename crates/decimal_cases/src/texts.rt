// Numbers and half places as text.
ghost use Rattle.std.specs.Prelude.{◌^◌, ◌<◌, ◌≤◌, ◌+◌, unsigned_abs};

use decimal::{HalfPlace, Nearest};
use std::alloc::Global;
use std::process::Abort;
use std::test::Fail;

// The number nearest to h / 2^PLACES, and half of its last place.
fn over<const PLACES: u32>(
    rt: &impl Abort,
    heap: Global,
    h: i128,
    number: &str,
    half: &str,
) -> Result<(), Fail>
    requires places { PLACES ≤ 63 }
    requires size { unsigned_abs h < 2 ^ (PLACES + 63) }
{
    let out = format!(in heap; "{}", Nearest::<PLACES> { numerator: h })?;
    assert_eq!(rt; out.as_str(), number);
    let error = format!(in heap; "{}", HalfPlace::<PLACES> { numerator: h })?;
    assert_eq!(rt; error.as_str(), half);
    Ok(())
}

#[test]
fn thirty_places(rt: HostRuntime) -> Result<(), Fail> {
    let heap = rt.alloc();
    over::<30>(&rt, heap, 0, "0", "0")?;
    over::<30>(
        &rt,
        heap,
        7516192768,
        "7",
        "0.000000000000000444089209850062616169452667236328125",
    )?;
    over::<30>(
        &rt,
        heap,
        4194304000,
        "3.90625",
        "0.0000000000000002220446049250313080847263336181640625",
    )?;
    over::<30>(
        &rt,
        heap,
        -5368696537088,
        "-4999.98828125",
        "0.00000000000045474735088646411895751953125",
    )?;
    over::<30>(
        &rt,
        heap,
        1,
        "0.000000000931322574615478515625",
        "0.00000000000000000000000010339757656912845935892608650874535669572651386260986328125",
    )?;
    // Rounded: towards zero, and away from it.
    over::<30>(
        &rt,
        heap,
        144115188075855873,
        "134217728",
        "0.00000001490116119384765625",
    )?;
    over::<30>(
        &rt,
        heap,
        -2305843009213694209,
        "-2147483648.000000476837158203125",
        "0.0000002384185791015625",
    )
}

#[test]
fn forty_eight_places(rt: HostRuntime) -> Result<(), Fail> {
    let heap = rt.alloc();
    over::<48>(&rt, heap, 0, "0", "0")?;
    over::<48>(
        &rt,
        heap,
        422212465065984,
        "1.5",
        "0.00000000000000011102230246251565404236316680908203125",
    )?;
    over::<48>(
        &rt,
        heap,
        -1,
        "-0.000000000000003552713678800500929355621337890625",
        "0.00000000000000000000000000000039443045261050590270586428264139311483660321755451150238513946533203125",
    )?;
    over::<48>(
        &rt,
        heap,
        604462922152993488587655,
        "2147483691.8606624603271484375",
        "0.0000002384185791015625",
    )?;
    // Rounded to the next power of two.
    over::<48>(
        &rt,
        heap,
        -1208925819614629174706175,
        "-4294967296",
        "0.0000002384185791015625",
    )
}
