// Rounds: their phases, what they ask and tell, answers, the closure test, the largest quiesce time, the count of answers.
ghost use Rattle.std.specs.Prelude.{ℕ, ◌+◌, ◌*◌, ◌≤◌, ◌<◌, ◌≡◌, cond, get_or};
ghost use Rattle.rules.specs.Tables.{no_round};
ghost use Rattle.rules.specs.Parts.{is_phase_one, is_phase_two, with_phase, asked_of, told_of, asked_status, told_status, asks_life, tells_life, has_answered, with_answer, opened_round, figures_at, received_at, is_closed, largest_quiesce, answer_count};
ghost use Rattle.parts.specs.Balances.{balance_of, balances_next, quiesce_of};

use rules::tables::{Asked, Figures, Kind, Phase, Round, Status, Told};

pub fn is_phase_one(p: Phase) -> bool
    ensures { result ≡ is_phase_one p }
{
    p == Phase::One
}

pub fn is_phase_two(p: Phase) -> bool
    ensures { result ≡ is_phase_two p }
{
    p == Phase::Two
}

pub fn with_phase(round: Round, phase: Phase) -> Round
    ensures { result ≡ with_phase round phase }
{
    Round { phase, ..round }
}

pub fn asked_of(k: Kind) -> Asked
    ensures { result ≡ asked_of k }
{
    match k {
        Kind::Refresh { release, .. } => Asked::Refresh(release),
        Kind::None | Kind::Terminate => Asked::Terminate,
        Kind::Prepare => Asked::Prepare,
    }
}

pub fn told_of(k: Kind, m: u32) -> Told
    ensures { result ≡ told_of k m }
{
    match k {
        Kind::Refresh { quiesce, .. } => Told::Refresh(quiesce),
        Kind::None | Kind::Terminate => Told::Terminate(m),
        Kind::Prepare => Told::Prepare,
    }
}

// At home a prepare makes the passage committing.
pub fn asked_status(asked: Asked, s: Status) -> Status
    ensures { result ≡ asked_status asked s }
{
    match asked {
        Asked::Refresh(_) | Asked::Terminate => s,
        Asked::Prepare => Status::Committing,
    }
}

// At home a prepare's phase 2 makes it committed.
pub fn told_status(told: Told, s: Status) -> Status
    ensures { result ≡ told_status told s }
{
    match told {
        Told::Refresh(_) | Told::Terminate(_) => s,
        Told::Prepare => Status::Committed,
    }
}

pub fn asks_life(asked: Asked) -> bool
    ensures { result ≡ asks_life asked }
{
    matches!(asked, Asked::Refresh(_) | Asked::Prepare)
}

pub fn tells_life(told: Told) -> bool
    ensures { result ≡ tells_life told }
{
    matches!(told, Told::Refresh(_) | Told::Prepare)
}

// Bit s of the answered mask.
pub fn has_answered(round: Round, site: usize) -> bool
    requires { site < 8 }
    ensures { result ≡ has_answered round site }
{
    (round.answered >> site) % 2 == 1
}

// An answer under its source, over any there.
pub fn with_answer(mut round: Round, site: usize, f: Figures) -> Round
    requires { site < 8 }
    ensures { result ≡ with_answer round site f }
{
    round.answered |= 1 << site;
    round.figures[site] = f;
    round
}

// The round of a passage that has had none.
pub fn no_round() -> Round
    ensures { result ≡ no_round }
{
    let none = Figures {
        sent: [0; 8],
        received: 0,
        quiesce: 0,
    };
    Round {
        number: 0,
        kind: Kind::None,
        phase: Phase::None,
        answered: 0,
        figures: [none; 8],
    }
}

// A round opens: number one higher, phase 1, nothing kept.
pub fn opened_round(round: Round, kind: Kind) -> Round
    requires { round.number ≤ 1000 }
    ensures { result ≡ opened_round round kind }
{
    Round {
        number: round.number + 1,
        kind,
        phase: Phase::One,
        ..no_round()
    }
}

// What site s answered, if it has.
fn answer_of(round: &Round, s: usize) -> Option<Figures>
    requires { s < 8 }
    ensures { result ≡ cond (has_answered round.now s) (Some (figures_at round.now s)) None }
{
    has_answered(*round, s).then(|| round.figures[s])
}

// What site s sent to site d, if it has answered.
fn sent_by(round: &Round, s: usize, d: usize) -> u32
    requires { (s < 8) × (d < 8) }
    ensures { (result ≡ balance_of round.now s d) × (result ≤ 65535) }
{
    answer_of(round, s).map_or(0, |f| u32::from(f.sent[d]))
}

// One balance, updated by the answer of site s.
fn balance_next(round: &Round, s: usize, d: usize, b: u32) -> u32
    requires { (s < 8) × (d < 8) × (b ≤ 65535 * s) }
    ensures { (result ≡ b + balance_of round.now s d) × (result ≤ 65535 * (s + 1)) }
{
    b + sent_by(round, s, d)
}

// The balances, by value, come back updated by the answer of site s.
fn balances_next(round: &Round, s: usize, b: [u32; 8]) -> [u32; 8]
    requires { (s < 8) × ((d : ℕ) → get_or b d 0 ≤ 65535 * s) }
    ensures next { result ≡ balances_next round.now s b }
    ensures most { (d : ℕ) → get_or result d 0 ≤ 65535 * (s + 1) }
{
    std::array::from_fn(|d| balance_next(round, s, d, b[d]))
}

// What site d received, if it has answered.
fn received_by(round: &Round, d: usize) -> u32
    requires { d < 8 }
    ensures { result ≡ received_at round.now d }
{
    answer_of(round, d).map_or(0, |f| u32::from(f.received))
}

// The closure test: for every site, the calls sent to it by the answering sites are those that it received.
pub fn is_closed(round: Round) -> bool
    ensures { result ≡ is_closed round }
{
    let mut balances = [0; 8];
    for s in 0..8 {
        balances = balances_next(&round, s, balances);
    }
    (0..8).all(|d| balances[d] == received_by(&round, d))
}

// The quiesce time in the answer of site s, if it has answered.
fn quiesce_by(round: &Round, s: usize) -> u32
    requires { s < 8 }
    ensures { result ≡ quiesce_of round.now s }
{
    answer_of(round, s).map_or(0, |f| f.quiesce)
}

// M: the largest quiesce time among the answers, home's with them.
pub fn largest_quiesce(round: Round) -> u32
    ensures { result ≡ largest_quiesce round }
{
    (0..8).fold(0, |most, s| most.max(quiesce_by(&round, s)))
}

// The count of ones in the answered mask: the sites that have answered, home with them.
pub fn answer_count(round: Round) -> u32
    ensures { result ≡ answer_count round }
{
    round.answered.count_ones()
}
