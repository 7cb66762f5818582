// The figures that both printed books share.
ghost use Rattle.std.specs.Prelude.{◌≡◌, ◌-◌, None, cond, nat_le, slice_get};
ghost use Rattle.printed.specs.Figures.{certificate_limit, price, par, train_price, train_count, float, step_right, steps_left, on_chart, after_payout, split};

use rulebook::split::Split;

const PRICES: [u16; 16] = [
    40, 50, 60, 67, 71, 76, 82, 90, 100, 112, 126, 142, 160, 180, 200, 225,
];

// Apart from the prices: as structs, the sixteen spaces would fill four lines each.
const PAR_MARKS: [bool; 16] = [
    false, false, false, true, true, true, true, true, true, false, false, false, false, false,
    false, false,
];

// For two to six players.
const CERTIFICATE_LIMITS: [u8; 5] = [28, 20, 16, 13, 11];

struct TrainKind {
    price: u16,
    count: u8,
}

const TRAINS: [TrainKind; 5] = [
    TrainKind {
        price: 80,
        count: 7,
    },
    TrainKind {
        price: 180,
        count: 4,
    },
    TrainKind {
        price: 300,
        count: 3,
    },
    TrainKind {
        price: 450,
        count: 3,
    },
    TrainKind {
        price: 630,
        count: 2,
    },
];

pub(crate) const COMPANIES: u8 = 8;

pub(crate) const SHARE_LIMIT: u8 = 6;

pub(crate) const POOL_LIMIT: u8 = 5;

pub(crate) const SPACES: u16 = 16;

pub(crate) const TRAIN_KINDS: u8 = 5;

pub(crate) fn float_of(company: u8) -> u8
    ensures { result ≡ float company }
{
    if (1..=COMPANIES).contains(&company) {
        5
    } else {
        0
    }
}

pub(crate) fn certificate_limit_of(players: u8) -> u8
    ensures { result ≡ certificate_limit players }
{
    entry_for(&CERTIFICATE_LIMITS, 2, players).unwrap_or(0)
}

// The entry for so many players, in a table that begins with the fewest.
pub(crate) fn entry_for<T: Copy>(table: &[T], fewest: u8, players: u8) -> Option<T>
    ensures { result ≡ cond (nat_le fewest players) (slice_get table.now (players - fewest)) None }
{
    players
        .checked_sub(fewest)
        .and_then(|more| table.get(usize::from(more)))
        .copied()
}

pub(crate) fn price_of(space: u16) -> u16
    ensures { result ≡ price space }
{
    PRICES.get(usize::from(space)).copied().unwrap_or(0)
}

pub(crate) fn par_mark_of(space: u16) -> bool
    ensures { result ≡ par space }
{
    PAR_MARKS.get(usize::from(space)).copied().unwrap_or(false)
}

// Where a step from a space ends; from a space that the chart lacks, a token comes to space 0.
fn on_chart(space: u16, after: u16) -> u16
    ensures { result ≡ on_chart space after }
{
    if space < SPACES { after } else { 0 }
}

// One step left for each count, and no step past the end of the chart.
#[tactic(auto, using(crate::specs::Steps::steps_at_once))]
pub(crate) fn left_of(space: u16, steps: u8) -> u16
    ensures { result ≡ on_chart space (steps_left steps space) }
{
    on_chart(space, space.saturating_sub(u16::from(steps)))
}

fn right_of(space: u16) -> u16
    ensures { result ≡ on_chart space (step_right space) }
{
    on_chart(space, space.saturating_add(1).min(SPACES - 1))
}

pub(crate) fn after_payout_of(space: u16, mode: u8, revenue: u16) -> u16
    ensures { result ≡ after_payout space mode revenue }
{
    match (mode, revenue) {
        (0, _) | (1, 0) => left_of(space, 1),
        (1, _) => right_of(space),
        _ => on_chart(space, space),
    }
}

pub(crate) fn split_of(mode: u8, revenue: u16) -> Option<Split>
    ensures { result ≡ split mode revenue }
{
    if revenue > 9_990 || revenue % 10 != 0 {
        return None;
    }
    match mode {
        0 => Some(Split {
            dividend: 0,
            kept: revenue,
        }),
        1 => Some(Split {
            dividend: revenue / 10,
            kept: 0,
        }),
        _ => None,
    }
}

pub(crate) fn train_price_of(kind: u8) -> u16
    ensures { result ≡ train_price kind }
{
    TRAINS.get(usize::from(kind)).map_or(0, |train| train.price)
}

pub(crate) fn train_count_of(kind: u8) -> u8
    ensures { result ≡ train_count kind }
{
    TRAINS.get(usize::from(kind)).map_or(0, |train| train.count)
}
