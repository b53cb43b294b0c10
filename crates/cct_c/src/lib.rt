// The C ABI of the library: one function for each entry point, declared in include/cradlekeel.h.
#![tactic(auto)]

mod boards;
mod coarse;
mod comparison;
mod files;
mod salvaging;

ghost use Rattle.std.specs.Prelude.{◌≡◌};
ghost use Rattle.reading.specs.Convert.{convert_reading, convert_micro};
ghost use Rattle.spectral.specs.Samples.{convert_samples};
ghost use Rattle.cct.specs.Answers.{answer};
ghost use Rattle.cct.specs.FloatAnswers.{float_answer};

use cct::FloatAnswer;
use reading::{Micro, Reading, Source};
use spectral::Samples;

// CIE 1960 u, v.
#[unsafe(no_mangle)]
pub extern "C" fn ck_read_uv(u: f32, v: f32, edges: &[u32], max_steps: u32) -> FloatAnswer
    ensures answers { result ≡ float_answer (answer edges.now (convert_reading (Reading.Uv u v)) max_steps) }
    ensures unchanged { edges.exit.now ≡ edges.entry.now }
{
    cct::float_answer(Reading::Uv(u, v).convert(), edges, max_steps)
}

// CIE 1976 u', v'.
#[unsafe(no_mangle)]
pub extern "C" fn ck_read_uvp(
    u_prime: f32,
    v_prime: f32,
    edges: &[u32],
    max_steps: u32,
) -> FloatAnswer
    ensures answers { result ≡ float_answer (answer edges.now (convert_reading (Reading.UvPrime u_prime v_prime)) max_steps) }
    ensures unchanged { edges.exit.now ≡ edges.entry.now }
{
    cct::float_answer(
        Reading::UvPrime(u_prime, v_prime).convert(),
        edges,
        max_steps,
    )
}

// CIE 1931 x, y.
#[unsafe(no_mangle)]
pub extern "C" fn ck_read_xy(x: f32, y: f32, edges: &[u32], max_steps: u32) -> FloatAnswer
    ensures answers { result ≡ float_answer (answer edges.now (convert_reading (Reading.Xy x y)) max_steps) }
    ensures unchanged { edges.exit.now ≡ edges.entry.now }
{
    cct::float_answer(Reading::Xy(x, y).convert(), edges, max_steps)
}

// Tristimulus values X, Y, Z.
#[unsafe(no_mangle)]
pub extern "C" fn ck_read_xyz(x: f32, y: f32, z: f32, edges: &[u32], max_steps: u32) -> FloatAnswer
    ensures answers { result ≡ float_answer (answer edges.now (convert_reading (Reading.Xyz x y z)) max_steps) }
    ensures unchanged { edges.exit.now ≡ edges.entry.now }
{
    cct::float_answer(Reading::Xyz(x, y, z).convert(), edges, max_steps)
}

// CIE 1960 u and v as whole numbers in micro.
#[unsafe(no_mangle)]
pub extern "C" fn ck_read_micro(u: u32, v: u32, edges: &[u32], max_steps: u32) -> FloatAnswer
    ensures answers { result ≡ float_answer (answer edges.now (convert_micro u v) max_steps) }
    ensures unchanged { edges.exit.now ≡ edges.entry.now }
{
    cct::float_answer(Micro { u, v }, edges, max_steps)
}

// Spectral samples, with the observer's tables.
#[unsafe(no_mangle)]
pub extern "C" fn ck_read_samples(
    samples: &[u32],
    x_bar: &[u32],
    y_bar: &[u32],
    z_bar: &[u32],
    edges: &[u32],
    max_steps: u32,
) -> FloatAnswer
    ensures answers { result ≡ float_answer (answer edges.now (convert_samples samples.now x_bar.now y_bar.now z_bar.now) max_steps) }
    ensures unchanged { (samples.exit.now ≡ samples.entry.now) × (x_bar.exit.now ≡ x_bar.entry.now) × (y_bar.exit.now ≡ y_bar.entry.now) × (z_bar.exit.now ≡ z_bar.entry.now) × (edges.exit.now ≡ edges.entry.now) }
{
    let given = Samples {
        samples,
        x_bar,
        y_bar,
        z_bar,
    };
    cct::float_answer(given, edges, max_steps)
}
