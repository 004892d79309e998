// Laws of the definitions: these functions do nothing, and their contracts are the laws.
ghost use Rattle.nodes_told.specs.Reached.{ReachedLinesAreTold};
ghost use Rattle.nodes_told.specs.Reading.{PartsHaveNoFeed, ReadLinesAreSafe, ToldLinesAlike, ToldReadsBack};

use ots_model::different_lines_differ;

/// A text of told lines has one reading: it tells the words of each line, which lines of `ots_model` are among them,
/// and what stands behind the last of them, if that holds no line feed. So the lines that are read in a text of safe
/// lines, or in a front of it, are safe. A part of a line has no line feed.
pub fn told_lines_are_read()
    ensures back { ToldReadsBack }
    ensures alike { ToldLinesAlike }
    ensures safe { ReadLinesAreSafe }
    ensures parts { PartsHaveNoFeed }
{
    different_lines_differ();
}

/// In each world that a script reaches, each line that was told can be read so, and each of those that end the script.
pub fn reached_lines_are_told()
    ensures { ReachedLinesAreTold }
{}
