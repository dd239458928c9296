mod crashes;
mod installs;
mod journals;
mod projects;
mod standing;
