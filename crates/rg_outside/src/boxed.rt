use crate::operator::Operator;
use rg_base::control::Answer;

impl Operator for Box<dyn Operator + Send> {
    ghost answers = { λ b. (Operator-box b).answers b.value };

    ghost last = { λ b. (Operator-box b).last b.value };

    fn ask(&mut self, left: u64) -> Answer {
        (**self).ask(left)
    }
}
