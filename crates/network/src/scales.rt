// A scale S for chances, with the greatest number K of lanes in a set.
ghost use Rattle.std.specs.Prelude.{◌≡◌, ◌^◌, ◌≤◌, IfSome};
ghost use Rattle.network.specs.Answers.{Told};
ghost use Rattle.network.specs.Scales.{Greatest, admitted_rows, full_limit, limit_in, scale_refusal};

use crate::refusals::Refusal;

// A row of the table of admitted scales: a scale and the greatest number of lanes in a set.
#[derive(Clone, Copy)]
struct Row {
    scale: u16,
    limit: u8,
}

const ADMITTED: [Row; 8] = [
    Row {
        scale: 10,
        limit: 18,
    },
    Row {
        scale: 16,
        limit: 14,
    },
    Row {
        scale: 20,
        limit: 13,
    },
    Row {
        scale: 25,
        limit: 12,
    },
    Row {
        scale: 50,
        limit: 10,
    },
    Row {
        scale: 100,
        limit: 9,
    },
    Row {
        scale: 200,
        limit: 7,
    },
    Row {
        scale: 1000,
        limit: 6,
    },
];

fn find_limit(rows: &[Row], scale: u16) -> Option<u8>
    ensures { result ≡ limit_in rows.now scale }
{
    rows.iter()
        .find(|row| row.scale == scale)
        .map(|row| row.limit)
}

// The greatest number of lanes in a set at an admitted scale.
pub fn limit_at(scale: u16) -> Option<u8>
    ensures value { result ≡ limit_in admitted_rows scale }
    ensures rule { IfSome result (λ limit. Greatest scale limit) }
{
    find_limit(&ADMITTED, scale)
}

// K is `most`. The full scale, S^K, is at most 10^18.
#[derive(Clone, Copy)]
pub struct Scale {
    parts: u16,
    most: u8,
    ghost positive: { 1 ≤ parts },
    ghost nonempty: { 1 ≤ most },
    ghost rule: { parts ^ most ≤ full_limit },
}

impl Scale {
    // The scale of this many parts, for sets of at most this many lanes.
    pub fn admit(parts: u16, most: u8) -> Result<Scale, Refusal>
        ensures { Told (scale_refusal parts most) result (λ s. (s.parts ≡ parts) × (s.most ≡ most)) }
    {
        let Some(limit) = limit_at(parts) else {
            return Err(Refusal::ScaleNotAdmitted);
        };
        if most == 0 || most > limit {
            return Err(Refusal::SetLimitNotAdmitted);
        }
        Ok(Scale { parts, most })
    }

    pub fn parts(&self) -> u16
        ensures { result ≡ self.now.parts }
    {
        self.parts
    }

    pub fn most(&self) -> u8
        ensures { result ≡ self.now.most }
    {
        self.most
    }

    // The full scale, in parts of which a chance is told.
    pub fn full(&self) -> u64
        ensures { result ≡ self.now.parts ^ self.now.most }
    {
        let parts = u64::from(self.parts);
        let most = u32::from(self.most);
        parts.pow(most)
    }
}
