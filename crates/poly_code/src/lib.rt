//! Polynomials over the field of 256 elements: their values, and the values that a few of them fix.
#![tactic(auto)]

ghost use Rattle.std.specs.Prelude.{◌≡◌, ◌≢◌, ◌↔◌, ℕ, ◌<◌, ◌≤◌, length, slice_index, All, IfOk, IfSome, IfNone};
ghost use Rattle.poly_code.specs.Polynomial.{value_at as value_of, weighted_sum, AreDistinct};
ghost use Rattle.poly_code.specs.Code.{IsFirstRepeat, IsWeights, IsFilled};
ghost use Rattle.poly_code.specs.Lagrange.{others_product as product_of_others, weight_of};
ghost use Rattle.poly_code.specs.Laws.{PolynomialLaws};

use gf256::{add, inv, mul};
use scr_base::Bytes;
use std::alloc::{AllocError, Global};
use thiserror::Error;

/// Why no answer is given.
#[derive(Clone, Copy, Debug, PartialEq, Eq, Error)]
pub enum PolyError {
    /// The point at this place equals an earlier one; no place before it has such a point.
    #[error("the point at place {place} equals an earlier one")]
    Repeated { place: usize },
    /// There are fewer points than coefficients.
    #[error("there are fewer points than coefficients")]
    TooFew,
    /// There is no memory.
    #[error("out of memory")]
    Memory,
}

impl From<AllocError> for PolyError {
    ghost use Rattle.poly_code.specs.declared.PolyError.TheVariants.{Memory};

    ghost from_gives = { λ _ e. e ≡ Memory };

    fn from(_error: AllocError) -> Self {
        PolyError::Memory
    }
}

/// The value at `point` of the polynomial with these coefficients, the lowest first.
#[tactic(auto, using(crate::proofs::ValueLemmas::value_steps))]
pub fn value_at(coefs: &[u8], point: u8) -> u8
    ensures { result ≡ value_of coefs.now point }
{
    let mut value = 0;
    for i in (0..coefs.len()).rev() {
        value = add(coefs[i], mul(point, value));
    }
    value
}

/// The weights, one for each point, with which the values at the points sum up to the value at `target`, for every
/// polynomial with at most as many coefficients as there are points. Repeated where two points are equal.
pub fn weights(alloc: Global, points: &[u8], target: u8) -> Result<Bytes, PolyError>
    ensures ok { IfOk result (IsWeights points.now target) }
    ensures repeated { (place : ℕ) → (result ≡ Err (PolyError.Repeated place)) ↔ IsFirstRepeat points.now place }
    ensures enough { result ≢ Err PolyError.TooFew }
{
    if let Some(place) = first_repeat(points) {
        return Err(PolyError::Repeated { place });
    }
    Ok(Bytes::of(weights_of_distinct(alloc, points, target)?))
}

/// The values at the wanted points of the one polynomial with `deg` coefficients through the first `deg` points and
/// their values; further points are not used. TooFew where there are fewer. All points are below `n`.
pub fn fill(
    alloc: Global,
    n: u8,
    deg: u8,
    points: &[u8],
    values: &[u8],
    wanted: &[u8],
) -> Result<Bytes, PolyError>
    requires lists { length points.now ≡ length values.now }
    requires distinct { AreDistinct points.now (length points.now) }
    requires points_within { All (λ point. point < n) points.now }
    requires wanted_within { All (λ point. point < n) wanted.now }
    requires degree { deg ≤ n }
    ensures ok { IfOk result (IsFilled deg points.now values.now wanted.now) }
    ensures too_few { (result ≡ Err PolyError.TooFew) ↔ (length points.now < deg) }
    ensures distinct { (place : ℕ) → result ≢ Err (PolyError.Repeated place) }
{
    let count = deg as usize;
    if points.len() < count {
        return Err(PolyError::TooFew);
    }
    let front = &points[..count];
    let known = &values[..count];
    let mut answer = Vec::with_capacity(alloc, wanted.len())?;
    for point in wanted {
        let weights = weights_of_distinct(alloc, front, *point)?;
        answer
            .push(combination(weights.as_slice(), known))
            .map_err(AllocError::from)?;
    }
    Ok(Bytes::of(answer))
}

/// Roots, and what a few values fix, for the crates above. It does nothing.
pub fn polynomial_laws()
    ensures { PolynomialLaws }
{}

/// The first place whose point is an earlier one.
fn first_repeat(points: &[u8]) -> Option<usize>
    ensures found { IfSome result (IsFirstRepeat points.now) }
    ensures none { IfNone result (AreDistinct points.now (length points.now)) }
{
    for place in 0..points.len() {
        for earlier in 0..place {
            if points[earlier] == points[place] {
                return Some(place);
            }
        }
    }
    None
}

/// The weights for the value at the target, of points that differ.
fn weights_of_distinct(alloc: Global, points: &[u8], target: u8) -> Result<Vec<u8>, AllocError>
    requires { AreDistinct points.now (length points.now) }
    ensures { IfOk result (λ weights. IsWeights points.now target weights.items) }
{
    let mut weights = Vec::with_capacity(alloc, points.len())?;
    for j in 0..points.len() {
        weights.push(weight(points, j, target))?;
    }
    Ok(weights)
}

/// The weight of the point at place `j`, for the value at the target.
fn weight(points: &[u8], j: usize, target: u8) -> u8
    requires within { j < length points.now }
    requires distinct { AreDistinct points.now (length points.now) }
    ensures { result ≡ weight_of (slice_index points.now) (length points.now) j target }
{
    let top = others_product(points, j, target);
    let bottom = others_product(points, j, points[j]);
    match inv(bottom) {
        Some(inverse) => mul(top, inverse),
        None => unreachable!(),
    }
}

/// The product of `x - point` over each point but the one at `skipped`.
#[tactic(auto, using(crate::proofs::ValueLemmas::product_steps))]
fn others_product(points: &[u8], skipped: usize, x: u8) -> u8
    ensures { result ≡ product_of_others (slice_index points.now) skipped (length points.now) x }
{
    let mut product = 1;
    for i in 0..points.len() {
        if i != skipped {
            product = mul(add(x, points[i]), product);
        }
    }
    product
}

/// The sum of each weight times its value.
#[tactic(auto, using(crate::proofs::ValueLemmas::weighted_sum_steps))]
fn combination(weights: &[u8], values: &[u8]) -> u8
    requires { length weights.now ≡ length values.now }
    ensures { result ≡ weighted_sum (slice_index weights.now) (slice_index values.now) (length weights.now) }
{
    let mut total = 0;
    for i in 0..weights.len() {
        total = add(total, mul(weights[i], values[i]));
    }
    total
}
