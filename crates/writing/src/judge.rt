// Whether the caller may write: the shape of the image, or why the call is refused.
ghost use Rattle.std.specs.Prelude.{◌≡◌, IfOk};
ghost use Rattle.header.specs.Answer.{answer};
ghost use Rattle.header.specs.FirstOf.{first_of};
ghost use Rattle.header.specs.HeaderTest.{shape_of};
ghost use Rattle.writing.specs.State.{writing_tests, user_tests};

use header::judge::judge;
use header::options::Options;
use header::refusal::{Refusal, refuse_if};
use header::shape::Shape;
use header::state::{ANOTHER_WRITER, CLEAN, LAST_GENERATION, NO_WRITER_KNOWN};

// The tests of every writing call: the header test, and then the role.
pub fn judge_writer(image: &[u8], o: Options) -> Result<Shape, Refusal>
    ensures numbered { answer result ≡ first_of (writing_tests o image.now) }
    ensures shape { IfOk result (λ s. s ≡ shape_of image.now) }
{
    let shape = judge(image, o)?;
    refuse_if(o.role == ANOTHER_WRITER, Refusal::Busy)?;
    refuse_if(o.role == NO_WRITER_KNOWN, Refusal::InvalidInput)?;
    Ok(shape)
}

// The tests that commit and set user fields share: those of every writing call, then the state, then the generation.
pub fn judge_change(image: &[u8], o: Options) -> Result<Shape, Refusal>
    ensures numbered { answer result ≡ first_of (user_tests o image.now) }
    ensures shape { IfOk result (λ s. s ≡ shape_of image.now) }
{
    let shape = judge_writer(image, o)?;
    refuse_if(shape.state == CLEAN, Refusal::InvalidInput)?;
    refuse_if(shape.generation == LAST_GENERATION, Refusal::NeedsRebuild)?;
    Ok(shape)
}
