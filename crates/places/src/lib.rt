// The number and the place of a refusal, for those who tell it. A crate of its own, since its proof has a case for each refusal, and a
// must-fail edit of `rules` would check it anew. Assumes nothing.
#![tactic(auto)]

ghost use Rattle.std.specs.Prelude.{◌≡◌};
ghost use Rattle.rules.specs.Answers.{placed, place};

use rules::{Place, Refusal};

// The number of the refusal and its place. No `From<Refusal> for Place`: it would have to stand in `rules`, where both types are.
pub fn place(why: Refusal) -> Place
    ensures { result ≡ place why }
{
    match why {
        Refusal::TableShort => placed(1, 0, 0),
        Refusal::TableMark => placed(2, 0, 0),
        Refusal::TableVersion => placed(3, 0, 0),
        Refusal::TableCount => placed(4, 0, 0),
        Refusal::TableLength => placed(5, 0, 0),
        Refusal::Parent { plan } => placed(6, 0, plan),
        Refusal::Undefined { plan } => placed(7, 0, plan),
        Refusal::Unfit { plan } => placed(8, 0, plan),
        Refusal::Wait { plan } => placed(9, 0, plan),
        Refusal::Lengths => placed(10, 0, 0),
        Refusal::State { plan } => placed(11, 0, plan),
        Refusal::Word { step, plan } => placed(12, step, plan),
        Refusal::RecordHeader => placed(13, 0, 0),
        Refusal::RecordLength => placed(14, 0, 0),
        Refusal::Unexplained { step, plan } => placed(15, step, plan),
        Refusal::InputLong => placed(16, 0, 0),
        Refusal::RuleNumber => placed(17, 0, 0),
        Refusal::ValueRange => placed(18, 0, 0),
        Refusal::ManySamples => placed(19, 0, 0),
        Refusal::TimesOrder => placed(20, 0, 0),
        Refusal::NoInterval => placed(21, 0, 0),
        Refusal::Formula { node } => placed(22, 0, node),
        Refusal::NodeKind => placed(23, 0, 0),
        Refusal::OutputShort => placed(24, 0, 0),
        Refusal::NormalRange => placed(26, 0, 0),
    }
}

// A number, a step and a plan: unnamed places are 0.
fn placed(number: u8, step: u16, plan: u16) -> Place
    ensures { result ≡ placed number step plan }
{
    Place { number, step, plan }
}
