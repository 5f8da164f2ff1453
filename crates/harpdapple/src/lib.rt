// The host's side of document 01: what firmware and station programs link, with the C ABI.
// include/harpdapple.h is the manual. A meter stays with the host and is lent; on a refusal it is
// left as it was. Answers are flat structs: `accepted`, else the number in `refusal`, all else 0.
#![tactic(auto)]

pub mod calls; // calls.rt: the seven calls on a lent meter
pub mod plans; // plans.rt: plan records
pub mod queries; // queries.rt: the questions over a lent meter, and the sum

ghost use Rattle.std.specs.Prelude.{◌≡◌};
ghost use Rattle.harpdapple.specs.Replies.{codes_reply_of, step_reply_of, display_reply_of, placed_reply_of, sum_reply_of, plan_reply_of, part_reply_of};

use account::Codes;
use plan::{Plan, StepPrice};
use plan_record::Which;
use records::PlacedRecord;
use refusal::{Acceptance, Refusal};
use units::{Shown, TenThousandths, VolumeSum};

// The replies are a struct for each payload, and no generic one: an exported function takes and hands
// out none.

// What a call answers: accepted with its event codes, or refused with the number and none.
#[repr(C)]
#[derive(Clone, Copy)]
pub struct CodesReply {
    pub acceptance: Acceptance,
    pub codes: Codes,
}

#[repr(C)]
#[derive(Clone, Copy)]
pub struct StepReply {
    pub acceptance: Acceptance,
    pub step: StepPrice,
}

#[repr(C)]
#[derive(Clone, Copy)]
pub struct DisplayReply {
    pub acceptance: Acceptance,
    pub shown: Shown,
}

// A record with its place k, newest first from 0.
#[repr(C)]
#[derive(Clone, Copy)]
pub struct RecordReply {
    pub acceptance: Acceptance,
    pub found: PlacedRecord,
}

#[repr(C)]
#[derive(Clone, Copy)]
pub struct SumReply {
    pub acceptance: Acceptance,
    pub volume: VolumeSum,
}

#[repr(C)]
#[derive(Clone, Copy)]
pub struct PlanReply {
    pub acceptance: Acceptance,
    pub plan: Plan,
}

// Which of two records is in force: 1 or 2, a number as the C header has it.
#[repr(C)]
#[derive(Clone, Copy)]
pub struct PartReply {
    pub acceptance: Acceptance,
    pub which: u8,
}

impl From<Result<Codes, Refusal>> for CodesReply {
    ghost from_gives = { λ a r. r ≡ codes_reply_of a };

    #[tactic(auto, unfolding(crate::specs::Replies::codes_reply_of))]
    fn from(answer: Result<Codes, Refusal>) -> CodesReply {
        CodesReply {
            acceptance: Acceptance::from(answer),
            codes: answer.unwrap_or(Codes::none()),
        }
    }
}

impl From<Result<StepPrice, Refusal>> for StepReply {
    ghost from_gives = { λ a r. r ≡ step_reply_of a };

    #[tactic(auto, unfolding(crate::specs::Replies::step_reply_of))]
    fn from(answer: Result<StepPrice, Refusal>) -> StepReply {
        StepReply {
            acceptance: Acceptance::from(answer),
            step: answer.unwrap_or(StepPrice {
                number: 0,
                price: TenThousandths(0),
            }),
        }
    }
}

impl From<Result<Shown, Refusal>> for DisplayReply {
    ghost from_gives = { λ a r. r ≡ display_reply_of a };

    #[tactic(auto, unfolding(crate::specs::Replies::display_reply_of))]
    fn from(answer: Result<Shown, Refusal>) -> DisplayReply {
        DisplayReply {
            acceptance: Acceptance::from(answer),
            shown: answer.unwrap_or(Shown(0)),
        }
    }
}

impl From<Result<PlacedRecord, Refusal>> for RecordReply {
    ghost from_gives = { λ a r. r ≡ placed_reply_of a };

    #[tactic(auto, unfolding(crate::specs::Replies::placed_reply_of))]
    fn from(answer: Result<PlacedRecord, Refusal>) -> RecordReply {
        RecordReply {
            acceptance: Acceptance::from(answer),
            found: answer.unwrap_or(PlacedRecord::none()),
        }
    }
}

impl From<Result<VolumeSum, Refusal>> for SumReply {
    ghost from_gives = { λ a r. r ≡ sum_reply_of a };

    #[tactic(auto, unfolding(crate::specs::Replies::sum_reply_of))]
    fn from(answer: Result<VolumeSum, Refusal>) -> SumReply {
        SumReply {
            acceptance: Acceptance::from(answer),
            volume: answer.unwrap_or(VolumeSum(0)),
        }
    }
}

impl From<Result<Plan, Refusal>> for PlanReply {
    ghost from_gives = { λ a r. r ≡ plan_reply_of a };

    #[tactic(auto, unfolding(crate::specs::Replies::plan_reply_of))]
    fn from(answer: Result<Plan, Refusal>) -> PlanReply {
        match answer {
            Ok(plan) => PlanReply {
                acceptance: Acceptance::from(Ok::<(), Refusal>(())),
                plan,
            },
            Err(refusal) => PlanReply {
                acceptance: Acceptance::from(Err::<(), Refusal>(refusal)),
                plan: Plan::none(),
            },
        }
    }
}

impl From<Result<Which, Refusal>> for PartReply {
    ghost from_gives = { λ a r. r ≡ part_reply_of a };

    #[tactic(auto, unfolding(crate::specs::Replies::part_reply_of))]
    fn from(answer: Result<Which, Refusal>) -> PartReply {
        PartReply {
            acceptance: Acceptance::from(answer),
            which: match answer {
                Ok(Which::First) => 1,
                Ok(Which::Second) => 2,
                Err(_) => 0,
            },
        }
    }
}
