// The coarse reader for C.
ghost use Rattle.std.specs.Prelude.{◌≡◌};
ghost use Rattle.reading.specs.Convert.{convert_reading, convert_micro};
ghost use Rattle.nearest.specs.Coarse.{coarse};

use nearest::Coarse;
use reading::{Micro, Reading};

// CIE 1960 u, v.
#[unsafe(no_mangle)]
pub extern "C" fn ck_coarse_uv(u: f32, v: f32) -> Coarse
    ensures { result ≡ coarse (convert_reading (Reading.Uv u v)) }
{
    nearest::coarse_answer(Reading::Uv(u, v))
}

// CIE 1976 u', v'.
#[unsafe(no_mangle)]
pub extern "C" fn ck_coarse_uvp(u_prime: f32, v_prime: f32) -> Coarse
    ensures { result ≡ coarse (convert_reading (Reading.UvPrime u_prime v_prime)) }
{
    nearest::coarse_answer(Reading::UvPrime(u_prime, v_prime))
}

// CIE 1931 x, y.
#[unsafe(no_mangle)]
pub extern "C" fn ck_coarse_xy(x: f32, y: f32) -> Coarse
    ensures { result ≡ coarse (convert_reading (Reading.Xy x y)) }
{
    nearest::coarse_answer(Reading::Xy(x, y))
}

// Tristimulus values X, Y, Z.
#[unsafe(no_mangle)]
pub extern "C" fn ck_coarse_xyz(x: f32, y: f32, z: f32) -> Coarse
    ensures { result ≡ coarse (convert_reading (Reading.Xyz x y z)) }
{
    nearest::coarse_answer(Reading::Xyz(x, y, z))
}

// CIE 1960 u and v as whole numbers in micro.
#[unsafe(no_mangle)]
pub extern "C" fn ck_coarse_micro(u: u32, v: u32) -> Coarse
    ensures { result ≡ coarse (convert_micro u v) }
{
    nearest::coarse_answer(Micro { u, v })
}
