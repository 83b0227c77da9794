//! Reed-Solomon stripes: any n - k segments of a stripe give all n.
#![tactic(auto)]

ghost use Rattle.std.specs.Prelude.{◌≡◌, ◌≢◌, ◌↔◌, ℕ, ◌-◌, ◌<◌, ◌≤◌, None, length, take, slice_index, slice_index_or, vec_len, IsSome, IfOk};
ghost use Rattle.std.specs.Bool.{OnTrue, OnFalse};
ghost use Rattle.poly_code.specs.Polynomial.{IsBytes, AreDistinct, weighted_sum};
ghost use Rattle.reed_solomon.specs.Stripe.{known_places, segment_of, AreOfOneLength, IsShort, IsCompleted, IsRebuilt, AreFactors, ArePlaces, IsSegment};

use lane_kernels::mul_add_into;
use poly_code::{PolyError, weights};
use scr_base::Bytes;
use std::alloc::{AllocError, Global};
use thiserror::Error;

/// Why no stripe is given.
#[derive(Clone, Copy, Debug, PartialEq, Eq, Error)]
pub enum RsError {
    /// Fewer segments are known than a stripe has data segments.
    #[error("only {known} segments are known")]
    TooFew { known: u8 },
    /// There is no memory.
    #[error("out of memory")]
    Memory,
}

impl From<AllocError> for RsError {
    ghost use Rattle.reed_solomon.specs.declared.RsError.TheVariants.{Memory};

    ghost from_gives = { λ _ e. e ≡ Memory };

    fn from(_error: AllocError) -> Self {
        RsError::Memory
    }
}

/// All n segments of the stripe that has the first n - k known ones: each byte column holds the values at 0 to n - 1 of
/// a polynomial with n - k coefficients. TooFew where fewer are known. `known` has an entry for each place; k is at
/// least 1.
pub fn rebuild_stripe(
    alloc: Global,
    n: u8,
    k: u8,
    known: &Vec<Option<Bytes>>,
) -> Result<Vec<Bytes>, RsError>
    requires count { vec_len known.now ≡ n }
    requires one_length { AreOfOneLength known.now.items }
    requires parity { 1 ≤ k }
    requires data { k < n }
    ensures ok { IfOk result (λ stripe. IsCompleted (n - k) known.now.items stripe.items) }
    ensures too_few { (count : ℕ) → (result ≡ Err (RsError.TooFew count)) ↔ IsShort (n - k) known.now.items count }
{
    let places = first_places(alloc, n - k, known)?;
    let mut stripe = Vec::with_capacity(alloc, known.len())?;
    for target in 0..n {
        let segment = segment_for(alloc, known, places.as_slice(), target)?;
        stripe.push(segment).map_err(AllocError::from)?;
    }
    Ok(stripe)
}

/// All n segments of a stripe from its data segments: `parts` has none at the parity places of this stripe. TooFew where
/// there are fewer than n - k.
pub fn encode_stripe(
    alloc: Global,
    n: u8,
    k: u8,
    stripe: u8,
    parts: &Vec<Option<Bytes>>,
) -> Result<Vec<Bytes>, RsError>
    requires count { vec_len parts.now ≡ n }
    requires one_length { AreOfOneLength parts.now.items }
    requires parity { 1 ≤ k }
    requires data { k < n }
    requires within { stripe < n }
    ensures ok { IfOk result (λ segments. IsCompleted (n - k) parts.now.items segments.items) }
    ensures too_few { (count : ℕ) → (result ≡ Err (RsError.TooFew count)) ↔ IsShort (n - k) parts.now.items count }
{
    rebuild_stripe(alloc, n, k, parts)
}

/// The segment at `target` alone, of the stripe that has the first n - k known ones: its bytes are the values at the
/// target of the polynomials that go through the known bytes. TooFew where fewer than n - k are known. `known` has an
/// entry for each place; k is at least 1.
pub fn rebuild_segment(
    alloc: Global,
    n: u8,
    k: u8,
    known: &Vec<Option<Bytes>>,
    target: u8,
) -> Result<Bytes, RsError>
    requires count { vec_len known.now ≡ n }
    requires one_length { AreOfOneLength known.now.items }
    requires parity { 1 ≤ k }
    requires data { k < n }
    requires within { target < n }
    ensures ok { IfOk result (IsRebuilt (n - k) known.now.items target) }
    ensures too_few { (count : ℕ) → (result ≡ Err (RsError.TooFew count)) ↔ IsShort (n - k) known.now.items count }
{
    let first = first_places(alloc, n - k, known)?;
    let segment = segment_for(alloc, known, first.as_slice(), target)?;
    Ok(segment)
}

/// The factors with which the segments at the places sum up to the one at the target, in each stripe of n segments with
/// k of parity. The places are n - k that differ.
pub fn factors(alloc: Global, n: u8, k: u8, places: &[u8], target: u8) -> Result<Bytes, AllocError>
    requires count { length places.now ≡ n - k }
    requires distinct { AreDistinct places.now (length places.now) }
    requires below { (j : ℕ) → j < length places.now → slice_index places.now j < n }
    requires within { target < n }
    ensures { IfOk result (AreFactors (n - k) n places.now target) }
{
    match weights(alloc, places, target) {
        Ok(factors) => Ok(factors),
        Err(PolyError::Memory) => Err(AllocError),
        Err(PolyError::TooFew) => unreachable!(),
        Err(PolyError::Repeated { .. }) => unreachable!(),
    }
}

/// The places of the first known segments, as many as are needed.
fn first_places(alloc: Global, needed: u8, known: &Vec<Option<Bytes>>) -> Result<Vec<u8>, RsError>
    requires count { vec_len known.now < 256 }
    requires one_length { AreOfOneLength known.now.items }
    requires needed { 1 ≤ needed }
    ensures count { IfOk result (λ places. vec_len places ≡ needed) }
    ensures first { IfOk result (λ places. places.items ≡ take needed (known_places known.now.items)) }
    ensures places { IfOk result (λ places. ArePlaces known.now.items places.items) }
    ensures too_few { (count : ℕ) → (result ≡ Err (RsError.TooFew count)) ↔ IsShort needed known.now.items count }
{
    let count = count_known(known);
    if count < needed as usize {
        return Err(RsError::TooFew { known: count as u8 });
    }
    let mut places = places_of(alloc, known)?;
    places.truncate(needed as usize);
    Ok(places)
}

/// The segment at the target, of the stripe that has the segments at these places.
fn segment_for(
    alloc: Global,
    known: &Vec<Option<Bytes>>,
    places: &[u8],
    target: u8,
) -> Result<Bytes, AllocError>
    requires { ArePlaces known.now.items places.now }
    ensures { IfOk result (IsSegment known.now.items places.now target) }
{
    if is_among(places, target) {
        return copied(alloc, segment_at(known, target as usize));
    }
    let factors = match weights(alloc, places, target) {
        Ok(factors) => factors,
        Err(PolyError::Memory) => return Err(AllocError),
        Err(PolyError::TooFew) => unreachable!(),
        Err(PolyError::Repeated { .. }) => unreachable!(),
    };
    let mut segment = vec![in alloc; 0; segment_at(known, places[0] as usize).len()]?;
    weigh(known, places, factors.list(), segment.as_mut_slice());
    Ok(Bytes::of(segment))
}

/// Whether one of the places is the target.
fn is_among(places: &[u8], target: u8) -> bool
    ensures found { OnTrue result ((j : ℕ) × (j < length places.now) × (slice_index places.now j ≡ target)) }
    ensures none { OnFalse result ((j : ℕ) → j < length places.now → slice_index places.now j ≢ target) }
{
    for place in places {
        if *place == target {
            return true;
        }
    }
    false
}

/// A segment of its own with these bytes.
fn copied(alloc: Global, segment: &[u8]) -> Result<Bytes, AllocError>
    ensures same { IfOk result (λ copy. copy ≡ segment.now) }
    ensures bytes { IsBytes segment.now }
{
    Ok(Bytes::of(Vec::from_slice(alloc, segment)?))
}

/// Adds up the segments at the places, each times its weight, into `out`.
#[tactic(auto, using(poly_code::proofs::ValueLemmas::weighted_sum_steps))]
fn weigh(known: &Vec<Option<Bytes>>, places: &[u8], weights: &[u8], out: &mut [u8])
    requires places { ArePlaces known.now.items places.now }
    requires weights { length weights.now ≡ length places.now }
    requires room { length out.old ≡ length (segment_of known.now.items (slice_index places.now 0)) }
    ensures { (b : ℕ) → b < length out.old → slice_index out.new b
        ≡ weighted_sum (slice_index weights.now) (λ j. slice_index (segment_of known.now.items (slice_index places.now j)) b) (length places.now) }
{
    out.fill(0);
    for j in 0..places.len() {
        mul_add_into(out, segment_at(known, places[j] as usize), weights[j]);
    }
}

/// The segment known at this place.
fn segment_at(known: &Vec<Option<Bytes>>, place: usize) -> &[u8]
    requires within { place < vec_len known.now }
    requires known { IsSome (slice_index_or known.now.items place None) }
    ensures { result.now ≡ segment_of known.now.items place }
{
    match &known[place] {
        Some(segment) => segment.list(),
        None => unreachable!(),
    }
}

/// How many segments are known.
fn count_known(known: &Vec<Option<Bytes>>) -> usize
    ensures count { result ≡ length (known_places known.now.items) }
    ensures most { result ≤ vec_len known.now }
{
    let mut count = 0;
    for place in 0..known.len() {
        if known[place].is_some() {
            count += 1;
        }
    }
    count
}

/// The places of the known segments, ascending.
fn places_of(alloc: Global, known: &Vec<Option<Bytes>>) -> Result<Vec<u8>, AllocError>
    requires { vec_len known.now < 256 }
    ensures { IfOk result (λ places. places.items ≡ known_places known.now.items) }
{
    let mut places = Vec::with_capacity(alloc, known.len())?;
    for place in 0..known.len() {
        if known[place].is_some() {
            places.push(place as u8)?;
        }
    }
    Ok(places)
}
