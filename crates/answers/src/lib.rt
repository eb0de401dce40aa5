// The auditor's theorems: specs/ states them and has the table of examples, proofs/ shows them. The functions here change nothing and answer
// nothing. They ensure what theorems ask of samples and of a job: every call meets it, by the types of what it lends. Of bytes,
// `wire::bytes_fit` ensures it.
#![tactic(auto)]

ghost use Rattle.std.specs.Prelude.{◌≡◌, true};
ghost use Rattle.wire.specs.RuleWords.{every};
ghost use Rattle.samples.specs.Trace.{fits16};
ghost use Rattle.compose.specs.Writing.{job_of};
ghost use Rattle.compose.specs.declared.Head.{Head};
ghost use Rattle.trip.specs.GivenBack.{JobFits};

use compose::Head;

// Samples that are lent have 16 bits. Each is looked at, since the checker says of an element what its type says where it is read.
pub fn samples_fit(samples: &[i16])
    ensures { every fits16 samples.now ≡ true }
{
    for sample in samples {
        let _sample = *sample;
    }
}

// A job that is lent fits: its step and interval have two bytes, and its samples 16 bits.
pub fn job_fits(
    section1: &[u8],
    section2: &[u8],
    head: Head,
    firsts: &[u32],
    counts: &[u32],
    ids: &[u8],
    samples: &[i16],
)
    ensures { JobFits
        (job_of section1.now section2.now head firsts.now counts.now ids.now
        samples.now) }
{
    samples_fit(samples);
}
