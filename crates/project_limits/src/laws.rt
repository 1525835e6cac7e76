//! Laws of projects, as the contracts of functions that do nothing.
ghost use Rattle.project_limits.specs.Laws.{ConflictsAreWithin, FilesAreFew, PlacesAreFew, PlacesAreOfDesign, RequirementsAreOfTags, SizesAreWithin, SourcesAreFew, TagsAreFew, TestsAreFew};

/// A project reads at most 64 files, for its design or in all, asks for at most 10,000 mutations, gives an equivalence test 1 to 100,000 lemmas,
/// and has at most 16 tests and 32 tags.
pub fn projects_are_small()
    ensures files { FilesAreFew }
    ensures sources { SourcesAreFew }
    ensures size { SizesAreWithin }
    ensures conflicts { ConflictsAreWithin }
    ensures tests { TestsAreFew }
    ensures tags { TagsAreFew }
{}

/// What a project requires speaks of its tags, and the lines that it names are those of files of its design; it names at most 64 of
/// these, and of instances.
pub fn options_are_known()
    ensures requirement { RequirementsAreOfTags }
    ensures places { PlacesAreOfDesign }
    ensures few { PlacesAreFew }
{}
