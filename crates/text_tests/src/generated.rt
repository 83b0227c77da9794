use script_gen::{Draws, generate};
use std::test::Fail;

/// A sum over all bytes that depends on their order.
fn checksum(text: &[u8]) -> u32 {
    text.iter().fold(
        0u32,
        |sum, byte| sum.wrapping_mul(31).wrapping_add(u32::from(*byte)),
    )
}

#[test]
fn first_draws(rt: HostRuntime) {
    let mut draws = Draws::new(1);
    for number in [16838, 5758, 10113] {
        assert_eq!(rt; draws.below(32768), number);
    }
}

// The lengths and sums are those of a program of a few lines in another language.
#[test]
fn whole_scripts(rt: HostRuntime) -> Result<(), Fail> {
    for (seed, len, sum) in [
        (0, 3246, 2537244773),
        (1, 2823, 2656776535),
        (12345, 3150, 1539465695),
        (4294967295, 2442, 2760267368),
    ] {
        let text = generate(rt.alloc(), seed).ok().ok_or("no memory")?;
        assert_eq!(rt; text.list().len(), len, "from seed {seed}");
        assert_eq!(rt; checksum(text.list()), sum, "from seed {seed}");
    }
    Ok(())
}

#[test]
fn lines_of_the_first_seed(rt: HostRuntime) -> Result<(), Fail> {
    let text = generate(rt.alloc(), 1).ok().ok_or("no memory")?;
    for (place, line) in [
        (0, b"site 8 2 2".as_slice()),
        (11, b"rank all start c1.1 ckpt".as_slice()),
        (13, b"rank all write f 0 fill 126 10114".as_slice()),
    ] {
        let found = text.list().split(|byte| *byte == b'\n').nth(place);
        assert_eq!(rt; found.ok_or("no such line")?, line);
    }
    Ok(())
}
