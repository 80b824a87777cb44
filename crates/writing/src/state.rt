// Begin, checkpoint, invalidate and set user fields.
ghost use Rattle.std.specs.Prelude.{◌≡◌, [], ◌∷◌, ◌%◌, ◌≤◌, ◌<◌, ◌^◌, length};
ghost use Rattle.header.specs.Answer.{answer};
ghost use Rattle.header.specs.Fields.{value, generation as generation-name, state as state-name, user_flags};
ghost use Rattle.header.specs.FirstOf.{first_of};
ghost use Rattle.header.specs.State.{INVALIDATED, last_generation};
ghost use Rattle.writing.specs.Write.{Leaves, unless};
ghost use Rattle.writing.specs.State.{writing_tests, in_state, published, with_user_data, begin_of, checkpoint_of, invalidate_of, set_user_fields_of};

use crate::fields::{seal, write};
use crate::judge::{judge_change, judge_writer};
use header::fields::{Name, field_of};
use header::open::{USER_DATA_SIZE, UserFields};
use header::options::Options;
use header::refusal::{Refusal, refuse_if};
use header::state::{CLEAN, DIRTY, GENERATION_STEP, INVALIDATED, LAST_GENERATION};
use numbers::parts::copy_to;

// Changes the state alone; an image that has it already is left as it is.
fn turn(image: &mut [u8], from: u64, to: u64)
    requires { (256 ≤ length image.old) × (from ≡ value image.old state-name) × (to < 2 ^ 32) }
    ensures { image.new ≡ in_state image.old to }
{
    if from != to {
        write(image, Name::State, to);
        seal(image);
    }
}

// Makes the writing tests and, where they pass, changes the state.
fn change_state(image: &mut [u8], o: Options, state: u64) -> Result<(), Refusal>
    requires { state < 2 ^ 32 }
    ensures { Leaves (unless (first_of (writing_tests o image.old)) image.old (in_state image.old state)) (answer result) image.new }
{
    let shape = judge_writer(image, o)?;
    turn(image, shape.state, state);
    Ok(())
}

// Makes a CLEAN image DIRTY. Refused, it leaves every byte alone.
pub fn begin(image: &mut [u8], o: Options) -> Result<(), Refusal>
    ensures { Leaves (begin_of o image.old) (answer result) image.new }
{
    change_state(image, o, DIRTY)
}

// Makes a DIRTY image CLEAN. Refused, it leaves every byte alone.
pub fn checkpoint(image: &mut [u8], o: Options) -> Result<(), Refusal>
    ensures { Leaves (checkpoint_of o image.old) (answer result) image.new }
{
    change_state(image, o, CLEAN)
}

// Makes the state INVALIDATED, moves the generation on and renews the CRC.
fn put_invalidated(image: &mut [u8], generation: u64)
    requires { (256 ≤ length image.old) × (generation ≡ value image.old generation-name) × (generation % 2 ≡ 0) × (generation ≡ last_generation → ⊥) }
    ensures { image.new ≡ published image.old ((state-name, INVALIDATED) ∷ []) }
{
    write(image, Name::Generation, generation + GENERATION_STEP);
    write(image, Name::State, INVALIDATED);
    seal(image);
}

// Makes a CLEAN or DIRTY image INVALIDATED. Refused, it leaves every byte alone.
pub fn invalidate(image: &mut [u8], o: Options) -> Result<(), Refusal>
    ensures { Leaves (invalidate_of o image.old) (answer result) image.new }
{
    let shape = judge_writer(image, o)?;
    refuse_if(shape.generation == LAST_GENERATION, Refusal::NeedsRebuild)?;
    put_invalidated(image, shape.generation);
    Ok(())
}

// Puts the user data into its field.
fn write_user_data(image: &mut [u8], bytes: [u8; USER_DATA_SIZE])
    requires { 256 ≤ length image.old }
    ensures { image.new ≡ with_user_data image.old bytes }
{
    let field = field_of(Name::UserData);
    copy_to(image, field.offset, &bytes);
}

// Puts the user fields, moves the generation on and renews the CRC.
fn put_user_fields(image: &mut [u8], generation: u64, fields: UserFields)
    requires { (256 ≤ length image.old) × (generation ≡ value image.old generation-name) × (generation % 2 ≡ 0) × (generation ≡ last_generation → ⊥) }
    ensures { image.new ≡ published (with_user_data image.old fields.user_data) ((user_flags, fields.user_flags) ∷ []) }
{
    write_user_data(image, fields.user_data);
    write(image, Name::Generation, generation + GENERATION_STEP);
    write(image, Name::UserFlags, fields.user_flags);
    seal(image);
}

// Replaces the user fields of a DIRTY image. Refused, it leaves every byte alone.
pub fn set_user_fields(image: &mut [u8], o: Options, fields: UserFields) -> Result<(), Refusal>
    ensures { Leaves (set_user_fields_of o image.old fields) (answer result) image.new }
{
    let shape = judge_change(image, o)?;
    put_user_fields(image, shape.generation, fields);
    Ok(())
}
