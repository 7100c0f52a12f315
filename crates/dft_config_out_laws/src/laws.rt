//! Laws of texts, as contracts of functions that do nothing.

ghost use Rattle.dft_config_out_laws.specs.Comments.{HeadIsSkipped};
ghost use Rattle.dft_config_out_laws.specs.Lists.{ItemsAreRead, ListsAreRead};
ghost use Rattle.dft_config_out_laws.specs.Names.{NamesAreRead};
ghost use Rattle.dft_config_out_laws.specs.Tables.{TableIsRead};
ghost use Rattle.dft_config_out_laws.specs.Texts.{NoOtherIsRead, NoTextIsRefused, TextIsRead};

/// The text of a made configuration in range gives that configuration, and no other, and is refused for want of memory alone.
pub fn text_is_read()
    ensures read { TextIsRead }
    ensures other { NoOtherIsRead }
    ensures refused { NoTextIsRefused }
{}

/// The table of a made configuration in range is read as that configuration.
pub fn table_is_read()
    ensures { TableIsRead }
{}

/// A name as it is written, with its backslashes, is read as that name by the grammar of TOML.
pub fn names_are_read()
    ensures { NamesAreRead }
{}

/// Where each item of a list is read as its value, the written list is read as their list. A number in decimal and a name in quotes are
/// read as they are.
pub fn lists_are_read()
    ensures lists { ListsAreRead }
    ensures items { ItemsAreRead }
{}

/// A reader of TOML skips the line of comment above a made configuration.
pub fn head_is_skipped()
    ensures { HeadIsSkipped }
{}
