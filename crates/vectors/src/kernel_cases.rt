// The cases of kernels and of the key of a float.
use crate::answers::Answers;
use crate::line::Line;

// A kernel at a float.
pub fn kernel<F: Fn(f64) -> f64>(line: &mut Line, answers: &mut Answers, f: F) -> Option<()>
    requires { F.IsAlwaysCallable f }
{
    let x = line.float()?;
    line.end()?;
    answers.float(f(x));
    Some(())
}

pub fn binomial(line: &mut Line, answers: &mut Answers) -> Option<()> {
    let (k, n, p) = (line.number()?, line.number()?, line.float()?);
    line.end()?;
    answers.float(kernels_gamma::binomial::ln_pmf(k, n, p));
    Some(())
}

// A NaN has no key.
pub fn key(line: &mut Line, answers: &mut Answers) -> Option<()> {
    let x = line.float()?;
    line.end()?;
    if x.is_nan() {
        answers.float(x);
    } else {
        answers.signed(floats::key::key(x));
    }
    Some(())
}
