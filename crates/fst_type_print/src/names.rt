//! Paths and channels as text.

ghost use Rattle.std.specs.Prelude.{◌≡◌};
ghost use Rattle.fst_base.specs.Gains.{Gains};
ghost use Rattle.fst_type_print.specs.NameTexts.{channel_text, path_text};

use fst_base::push_number;
use fst_types::{ChannelName, Path};
use std::alloc::AllocError;

fn push_numbers(text: &mut String, numbers: &[u32]) -> Result<(), AllocError>
    ensures { Gains result text.old text.new (path_text numbers.now) }
{
    let [first, others @ ..] = numbers else {
        return Ok(());
    };
    push_number(text, *first)?;
    for number in others {
        text.push_str(".")?;
        push_number(text, *number)?;
    }
    Ok(())
}

/// Adds a path to a text.
pub fn push_path(text: &mut String, path: &Path) -> Result<(), AllocError>
    ensures { Gains result text.old text.new (path_text path.now) }
{
    push_numbers(text, path.as_slice())
}

/// Adds a channel's name to a text.
pub fn push_channel(text: &mut String, name: &ChannelName) -> Result<(), AllocError>
    ensures { Gains result text.old text.new (channel_text name.now) }
{
    push_path(text, &name.maker)?;
    text.push_str("#")?;
    push_number(text, name.count)
}
