// A number looked for in a table, under the name that docs/PROMISES.md has: a speed among the five, a count of 0 in a list of trains.
ghost use Rattle.std.specs.Prelude.{◌≡◌};
ghost use Rattle.numbers.specs.Member.{is_in};

#[tactic(auto, using(crate::proofs::MemberLaws::is_any))]
pub fn is_in(x: u16, table: &[u16]) -> bool
    ensures { result ≡ is_in x table.now }
{
    table.contains(&x)
}
