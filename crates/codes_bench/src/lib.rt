//! The codes for a C program that times them: each call is a call of the library, as often as said.
#![tactic(auto)]

ghost use Rattle.std.specs.Prelude.{◌≡◌, ◌<◌, ◌≤◌, length, vec_len, IfOk};
ghost use Rattle.scr_base.specs.declared.shape.Scheme.TheVariants.{Xor, Rs};
ghost use Rattle.member_shares.specs.Shares.{IsSet};

mod sets;

use scr_base::Scheme;
use sets::{encode, recover_all};
use std::alloc::Global;

/// `xor_into`.
#[unsafe(no_mangle)]
pub extern "C" fn codes_bench_xor_into(dst: &mut [u8], src: &[u8])
    requires { length dst.old ≡ length src.now }
{
    lane_kernels::xor_into(dst, src)
}

/// `mul_add_into`.
#[unsafe(no_mangle)]
pub extern "C" fn codes_bench_mul_add_into(dst: &mut [u8], src: &[u8], c: u8)
    requires { length dst.old ≡ length src.now }
{
    lane_kernels::mul_add_into(dst, src, c)
}

/// What each of n members keeps by XOR, whose streams of `len` bytes stand in `data` one behind the other: with `whole`
/// by `member_of`, which copies its stream too, else by `share_of`. The shares of the last time go into `shares`. False
/// where there is no memory.
#[unsafe(no_mangle)]
pub extern "C" fn codes_bench_encode_xor(
    alloc: Global,
    n: u8,
    data: &[u8],
    len: usize,
    whole: bool,
    shares: &mut [u8],
    reps: usize,
) -> bool
    requires { IsSet Xor n }
{
    encode(alloc, Scheme::Xor, n, data, len, whole, shares, reps).is_ok()
}

/// The same by Reed-Solomon with k parity segments.
#[unsafe(no_mangle)]
pub extern "C" fn codes_bench_encode_rs(
    alloc: Global,
    n: u8,
    k: u8,
    data: &[u8],
    len: usize,
    whole: bool,
    shares: &mut [u8],
    reps: usize,
) -> bool
    requires { IsSet (Rs k) n }
{
    encode(
        alloc,
        Scheme::Rs { shares: k },
        n,
        data,
        len,
        whole,
        shares,
        reps,
    )
    .is_ok()
}

/// The streams by XOR where the first `lost` of n members are lost, whose streams of `len` bytes stand in `data`: with
/// `whole` all, by `recover`, else the lost ones, each by `recover_one`. Those of the last time go into `back`. False
/// where there is no memory, or the loss isn't borne.
#[unsafe(no_mangle)]
pub extern "C" fn codes_bench_recover_xor(
    alloc: Global,
    n: u8,
    lost: u8,
    data: &[u8],
    len: u32,
    whole: bool,
    back: &mut [u8],
    reps: usize,
) -> bool
    requires { IsSet Xor n }
{
    recover_all(alloc, Scheme::Xor, n, lost, data, len, whole, back, reps).is_ok()
}

/// The same by Reed-Solomon with k parity segments.
#[unsafe(no_mangle)]
pub extern "C" fn codes_bench_recover_rs(
    alloc: Global,
    n: u8,
    k: u8,
    lost: u8,
    data: &[u8],
    len: u32,
    whole: bool,
    back: &mut [u8],
    reps: usize,
) -> bool
    requires { IsSet (Rs k) n }
{
    recover_all(
        alloc,
        Scheme::Rs { shares: k },
        n,
        lost,
        data,
        len,
        whole,
        back,
        reps,
    )
    .is_ok()
}
