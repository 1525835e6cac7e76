//! The law of what files hold, as the contract of a function that does nothing.
ghost use Rattle.campaign_reading.specs.Laws.{FilesHaveOneCause, ReadableFilesAreTaken, RefusedFilesMakeNone};

/// What files hold is refused for one cause, or makes a campaign, never both.
pub fn files_have_one_answer()
    ensures cause { FilesHaveOneCause }
    ensures none { RefusedFilesMakeNone }
    ensures taken { ReadableFilesAreTaken }
{}
