// What a call answers, told by a function of its value, or a refusal.
use crate::output::refused;
use answers::Refusal;

pub fn tell<T: Drop, F: FnOnce(T)>(rt: &impl Print, answer: Result<T, Refusal>, told: F)
    requires { F.IsAlwaysCallable told }
{
    match answer {
        Ok(value) => told(value),
        Err(refusal) => refused(rt, refusal),
    }
}
