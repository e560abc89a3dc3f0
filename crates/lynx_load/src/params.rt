//! Each process is to have an end for each param of its module.

ghost use Rattle.std.specs.Prelude.{◌≡◌, map};
ghost use Rattle.lynx_load.specs.Loading.{unfit_line};

use charlotte_calls::EndId;
use lynx_code::Code;

/// The line of the first process whose module has another number of params than the process has ends.
pub(crate) fn unfit_line(codes: &[Code], each: &[Vec<EndId>], lines: &[u32]) -> Option<u32>
    ensures { result ≡ unfit_line codes.now (map (λ ends. ends.items) each.now) lines.now }
{
    let [code, codes @ ..] = codes else {
        return None;
    };
    let [ends, each @ ..] = each else {
        return None;
    };
    let [line, lines @ ..] = lines else {
        return None;
    };
    if ends.len() != code.params as usize {
        return Some(*line);
    }
    unfit_line(codes, each, lines)
}
