// Cutting a curve at a parameter, and joining two (the Rust's edge.rs, `cut` and `concat`).
#![tactic(auto)]

ghost use Rattle.std.specs.Prelude.{◌≡◌};
ghost use Rattle.curve.specs.Curves.{cut_curve, join_curves, parameter_of, refuses};

use edge::Curve;

// Where the search put a point on a curve. No Option: document 01 names an enum of its own, one case with the parameter.
#[derive(Clone, Copy)]
pub enum Parameter {
    At(f64),
    Nowhere,
}

// The parameter that an f64's bits stand for.
pub fn parameter_of(bits: u64) -> Parameter
    ensures { result ≡ parameter_of bits }
{
    if bits % 0x8000_0000_0000_0000 > 0x7ff0_0000_0000_0000 {
        return Parameter::Nowhere;
    }
    Parameter::At(f64::from_bits(bits))
}

// Whether a curve refuses to be cut at t.
fn curve_refuses(k: Curve, t: f64) -> bool
    ensures { result ≡ refuses k t }
{
    if t - t != 0.0 {
        return true;
    }
    if t < k.t0 + 0.000001 {
        return true;
    }
    k.t1 - 0.000001 < t
}

// Cuts a curve where the search put a point: the two halves, the one at its front first; none if the curve refuses (16).
pub fn cut_curve(k: Curve, at: Parameter) -> Option<(Curve, Curve)>
    ensures { result ≡ cut_curve k at }
{
    match at {
        Parameter::Nowhere => None,
        Parameter::At(t) => {
            if curve_refuses(k, t) {
                return None;
            }
            Some((Curve { t0: k.t0, t1: t }, Curve { t0: t, t1: k.t1 }))
        }
    }
}

// Joins two curves, the second moved to where the first ends; none if the joined span is none (26).
pub fn join_curves(a: Curve, b: Curve) -> Option<Curve>
    ensures { result ≡ join_curves a b }
{
    let k = Curve {
        t0: a.t0,
        t1: b.t1 + (a.t1 - b.t0),
    };
    if k.is_span() {
        return Some(k);
    }
    None
}
