//! Laws of runs, each the contract of a function with an empty body.
ghost use Rattle.lance_cli.specs.Laws.{RepliesOfParts, RepliesEnd, ChainsAreReplied, StepsAgree, FrontsStand, FrontsCount, LinksExist, RunsExist, RunsOfOne};

/// A batch in two parts is replied to part by part.
pub fn replies_of_parts()
    ensures { RepliesOfParts }
{}

/// A batch that ends in its first part is that part.
pub fn replies_end()
    ensures { RepliesEnd }
{}

/// The outcomes along a chain are those of the replies.
pub fn chains_are_replied()
    ensures { ChainsAreReplied }
{}

/// At every step the objects stand for the dataset.
pub fn steps_agree()
    ensures { StepsAgree }
{}

/// Each front of the objects stands for the dataset after so many changes.
pub fn fronts_stand()
    ensures { FrontsStand }
{}

/// A front stands for one number of changes.
pub fn fronts_count()
    ensures { FrontsCount }
{}

/// A command has a link wherever the versions that it reads have tables in the dataset.
pub fn links_exist()
    ensures { LinksExist }
{}

/// A run has a chain wherever the versions that it reads stand.
pub fn runs_exist()
    ensures { RunsExist }
{}

/// What a run of one command did: why it was answered, what it put and what it printed.
pub fn runs_of_one()
    ensures { RunsOfOne }
{}
